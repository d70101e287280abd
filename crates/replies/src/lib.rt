// What a line of the program is answered, as text: document 01, "The program".
#![tactic(auto)]

ghost use Rattle.std.specs.Prelude.{◌≡◌, ◌+◌, ◌++◌, ◌≤◌, length};
ghost use Rattle.arrayvec.specs.ArrayString.{array_string_len};
ghost use Rattle.replies.specs.Replies.{replied, reply_text};

use arrayvec::ArrayString;
use text::{push_labelled, push_pair};
use units::refusals::Refusal;

// Easting and northing in cm, latitude and longitude in mas, the refusal, or that the line is of
// another form.
#[derive(Clone, Copy, Debug, PartialEq, Eq)]
pub enum Reply {
    Plane(i64, i64),
    Position(i64, i64),
    Refused(Refusal),
    Bad,
}

// Appends a reply to a text. `write!` gives the bytes of a `Display` only where it is `Ok`, and no clause says that
// it is; a reply is always written.
pub fn push_reply<const N: usize>(text: &mut ArrayString<N>, reply: Reply)
    requires { array_string_len text.old + length (reply_text (replied reply)) ≤ N }
    ensures { text.new.bytes ≡ text.old.bytes ++ reply_text (replied reply) }
{
    match reply {
        Reply::Plane(easting, northing) => push_pair(text, "E ", easting, " N ", northing),
        Reply::Position(latitude, longitude) => push_pair(text, "P ", latitude, " ", longitude),
        Reply::Refused(refusal) => push_labelled(text, "refused ", i64::from(refusal.number())),
        Reply::Bad => text.push_str("bad line"),
    }
}
