// The library for programs in C and other languages: `include/laea.h` declares these functions for
// their callers. The number in their names is that of the set's layout, so that a program that was
// compiled against another layout is not linked.
#![tactic(auto)]

pub mod codes;
pub mod degrees;
pub mod lists;
pub mod power;
pub mod sets;
pub mod version;
pub mod whole;
