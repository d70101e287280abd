// The code of a cell, written and read.
ghost use Rattle.code_reading.specs.Reading.{told_of_text};
ghost use Rattle.laea_c.specs.Calls.{CodeAnswered, CodeReadAnswered};

use c_answers::answer;
use code_reading::read_code;
use grid_codes::write_code;

// Writes the code of a cell into the first bytes of the text.
#[unsafe(no_mangle)]
pub extern "C" fn laea1_write_code(
    side: i64,
    east: i64,
    north: i64,
    text: &mut [u8],
    length: &mut u64,
) -> u8
    ensures { CodeAnswered side east north text.old text.new length.old length.new result }
{
    answer(write_code(side, east, north, text), length)
}

// Reads a code: the side, and the cell's numbers east and north.
#[unsafe(no_mangle)]
pub extern "C" fn laea1_read_code(text: &[u8], out: &mut [i64; 3]) -> u8
    ensures { CodeReadAnswered (told_of_text text.now) out.old out.new result }
{
    answer(read_code(text), out)
}
