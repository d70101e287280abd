// Doubles, printed by their bits.
use std::fmt;

// A double as a row shows it: its bits in hexadecimal, or a name.
#[derive(Clone, Copy)]
pub(crate) struct Bits(pub(crate) f64);

impl fmt::Display for Bits {
    fn fmt<W: fmt::Write>(&self, f: &mut fmt::Formatter<W>) -> fmt::Result {
        let x = self.0;
        if x.is_nan() {
            return f.write_str("NaN");
        }
        if x.is_infinite() {
            return f.write_str(if x < 0.0 { "-infinity" } else { "infinity" });
        }
        let bits = x.to_bits();
        write!(f, "{bits:016x}")
    }
}

// Two of them.
#[derive(Clone, Copy)]
pub(crate) struct Pair(pub(crate) (f64, f64));

impl fmt::Display for Pair {
    fn fmt<W: fmt::Write>(&self, f: &mut fmt::Formatter<W>) -> fmt::Result {
        let (first, second) = self.0;
        write!(f, "{} {}", Bits(first), Bits(second))
    }
}
