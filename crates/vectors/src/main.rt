// Runs the papers' examples in whole units and prints what the library answers; the gate holds it to `stdout`.
#![tactic(auto)]

mod bad_input;
mod bad_sets;
mod cell_rows;
mod centres;
mod examples;
mod nearness;
mod rows;
mod series_rows;
mod words;

use sine_table::SineTable;

fn main(rt: HostRuntime) {
    let t = SineTable::new();
    words::on_numbers(&rt);
    words::sines(&rt, &t);
    words::angles(&rt, &t);
    examples::document_001(&rt, &t);
    examples::document_004_sphere(&rt, &t);
    examples::document_004_oblique(&rt, &t);
    examples::document_004_polar(&rt, &t);
    examples::exact_rows(&rt);
    centres::off_the_poles(&rt);
    centres::polar(&rt);
    nearness::forward_on_sphere(&rt, &t);
    nearness::inverse_on_sphere(&rt);
    nearness::oblique(&rt);
    nearness::polar(&rt);
    bad_sets::extremes(&rt);
    bad_sets::limits(&rt);
    bad_sets::pairs(&rt);
    bad_input::extremes(&rt);
    bad_input::edges(&rt);
    cell_rows::sides(&rt);
    cell_rows::around_zero(&rt);
    cell_rows::limits(&rt);
    series_rows::rows(&rt, &t);
}
