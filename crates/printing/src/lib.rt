// What the programs of examples share in printing: a line of a text, an answer, and how a row ends.
#![tactic(auto)]

ghost use Rattle.std.specs.Prelude.{◌≡◌};
ghost use Rattle.printing.specs.InnerTexts.{line_of};

use std::fmt;
use units::refusals::Refusal;

// Ends a row with its verdict and gives that back; a write that fails is let go.
pub fn verdict(rt: &impl Print, right: bool) -> bool
    ensures { result ≡ right }
{
    let _ = rt.println(if right { ": ok" } else { ": off" });
    right
}

// Line k of a text, counted from 0, without its end; past the last line nothing.
pub fn line(text: &[u8], k: usize) -> &[u8]
    ensures { result.now ≡ line_of k text.now }
{
    text.split(|b| *b == b'\n').nth(k).unwrap_or(&[])
}

// The same of a text in UTF-8, whose lines are in UTF-8 too.
pub fn text_line(text: &str, k: usize) -> &str
    ensures { result.now ≡ line_of k text.now }
{
    str::from_utf8(line(text.as_bytes(), k)).unwrap_or("")
}

// An answer as a row shows it: what is given, or the refusal.
#[derive(Drop)]
pub struct Shown<T>(pub Result<T, Refusal>);

impl<T: fmt::Display> fmt::Display for Shown<T> {
    fn fmt<W: fmt::Write>(&self, f: &mut fmt::Formatter<W>) -> fmt::Result {
        match &self.0 {
            Ok(given) => write!(f, "{given}"),
            Err(refusal) => write!(f, "{refusal}"),
        }
    }
}
