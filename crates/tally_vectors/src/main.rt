// Runs histories of calls on tallies and prints what the library answers; the gate holds it to `stdout`.
#![tactic(auto)]

mod edges;
mod few;
mod many;
mod million;
mod rows;

fn main(rt: HostRuntime) {
    few::sides(&rt);
    few::powers(&rt);
    few::slots(&rt);
    few::out_of_limits(&rt);
    few::loops(&rt);
    edges::one_loop(&rt);
    edges::both_loops(&rt);
    many::history(&rt);
    million::history(&rt);
}
