// Runs examples in degrees and metres, one by one and in lists, and prints what the library answers; the gate holds it
// to `stdout`.
#![tactic(auto)]

mod degrees_and_metres;
mod doubles;
mod list_rows;
mod lists;
mod mixed;
mod point_rows;
mod sets;

fn main(rt: HostRuntime) {
    degrees_and_metres::centre(&rt);
    degrees_and_metres::limits(&rt);
    degrees_and_metres::plane_limits(&rt);
    degrees_and_metres::zeros(&rt);
    degrees_and_metres::halves(&rt);
    degrees_and_metres::not_numbers(&rt);
    degrees_and_metres::order(&rt);
    degrees_and_metres::too_far(&rt);
    lists::accepted(&rt);
    lists::refusals(&rt);
    mixed::of_degrees(&rt);
    mixed::of_metres(&rt);
}
