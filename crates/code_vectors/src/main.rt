// Runs examples of grid codes and prints what the library answers; the gate holds it to `stdout`.
#![tactic(auto)]

mod reading;
mod writing;

fn main(rt: HostRuntime) {
    writing::document_001(&rt);
    writing::ends(&rt);
    writing::refused(&rt);
    writing::rooms(&rt);
    reading::codes(&rt);
    reading::not_numbers(&rt);
    reading::not_codes(&rt);
}
