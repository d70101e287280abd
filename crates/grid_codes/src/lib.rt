// Writes the code of a cell in the INSPIRE geographical grid systems: document 02, c). Sides are in cm.
#![tactic(auto)]

ghost use Rattle.std.specs.Prelude.{◌≡◌, ◌+◌, ◌≤◌, [], ◌∷◌, ◌++◌, length, drop, pos, IfOk};
ghost use Rattle.text.specs.Numbers.{labelled};
ghost use Rattle.units.specs.Refusals.{refusal_number};
ghost use Rattle.cells.specs.Cells.{side_length};
ghost use Rattle.grid_codes.specs.Codes.{side_text, code_text, code_refusal, written_answer, CodeWritten};

use cells::Side;
use integers::magnitude;
use itoa::write_digits;
use text::put_bytes;
use units::refusals::Refusal;

// No code has more bytes.
pub const CODE_MOST: usize = 18;

// The side of a cell that has a code.
fn coded_side(length: i64, east: i64, north: i64) -> Result<Side, Refusal>
    ensures refusal { refusal_number result ≡ code_refusal length east north }
    ensures given { IfOk result (λ side. pos (side_length side) ≡ length) }
{
    let side = Side::try_from(length)?;
    side.check_numbers(east, north)?;
    Refusal::NegativeCell.unless(0 <= east && 0 <= north)?;
    Ok(side)
}

// Writes a letter and a number so that they end at `end`, and answers where they start.
fn put_labelled(code: &mut [u8; CODE_MOST], letter: u8, n: u64, end: usize) -> usize
    requires { (length (labelled (letter ∷ []) (pos n)) ≤ end) × (end ≤ 18) }
    ensures start { result + length (labelled (letter ∷ []) (pos n)) ≡ end }
    ensures written { drop result code.new ≡ labelled (letter ∷ []) (pos n) ++ drop end code.old }
{
    let at = write_digits(n, code, end) - 1;
    code[at] = letter;
    at
}

// Writes a text so that it ends at `end`, and answers where it starts.
#[inline(always)]
fn put_before(code: &mut [u8; CODE_MOST], text: &[u8], end: usize) -> usize
    requires { (length text.now ≤ end) × (end ≤ 18) }
    ensures start { result + length text.now ≡ end }
    ensures written { drop result code.new ≡ text.now ++ drop end code.old }
{
    let start = end - text.len();
    put_bytes(code, start, text);
    start
}

// Writes the code of a cell so that it ends where the bytes end, and answers where it starts: digits are made from the last
// one on.
fn put_code(code: &mut [u8; CODE_MOST], side: Side, east: u64, north: u64) -> usize
    requires { length (code_text (pos (side_length side)) (pos east) (pos north)) ≤ 18 }
    ensures start { result ≤ 18 }
    ensures written { drop result code.new ≡ code_text (pos (side_length side)) (pos east) (pos north) }
{
    let from_east = put_labelled(code, b'E', east, CODE_MOST);
    let from_north = put_labelled(code, b'N', north, from_east);
    match side {
        Side::Metres100 => put_before(code, b"100m", from_north),
        Side::Kilometre => put_before(code, b"1km", from_north),
        Side::Kilometres10 => put_before(code, b"10km", from_north),
    }
}

// Any side, any numbers, any bytes: the customer's call that writes a cell's code, and answers how many bytes it has.
// The code is made in a place of its own, so that nothing is written where the lent bytes are too few.
pub fn write_code(side: i64, east: i64, north: i64, out: &mut [u8]) -> Result<u64, Refusal>
    ensures { CodeWritten side east north out.old out.new (written_answer result) }
{
    let side = coded_side(side, east, north)?;
    let mut bytes = [0; CODE_MOST];
    let start = put_code(&mut bytes, side, magnitude(east), magnitude(north));
    let code = &bytes[start..];
    Refusal::LittleRoom.unless(code.len() <= out.len())?;
    out[..code.len()].copy_from_slice(code);
    Ok(code.len() as u64)
}
