// The line that says what was moved.
ghost use Rattle.std.specs.Prelude.{◌≡◌, ◌++◌, ◌+◌, ◌≤◌, length};
ghost use Rattle.field.specs.Bytes.{overlay};
ghost use Rattle.field.specs.Decimal.{chars};
ghost use Rattle.topmove.specs.Line.{line_size, start_of, rest_of, line_of};

use crate::moving::Moved;
use image::Way;

// No line is longer.
pub const LINE_SIZE: usize = 96;

// A word and a number behind it, from `at` on; answers where they end. `write!` promises its text only where it answers Ok, and the line is
// promised wherever it has room, so `field` lays the digits.
fn put_number(out: &mut [u8], at: usize, word: &[u8], v: u64) -> usize
    requires { (at + 28 ≤ length out.old) × (length word.now ≤ 8) }
    ensures out_after { out.new ≡ overlay out.old at (word.now ++ chars v) }
    ensures value { (result ≡ at + length (word.now ++ chars v)) × (result ≤ at + 28) }
{
    let n = word.len();
    let digits = field::decimal::digit_count(v);
    field::copy(word, 0, n, out, at);
    field::decimal::write_digits(out, at + n, digits, v);
    at + n + digits
}

// Version and rows, from the front on.
fn put_start(out: &mut [u8], moved: Moved) -> usize
    requires { line_size ≤ length out.old }
    ensures out_after { out.new ≡ overlay out.old 0 (start_of moved) }
    ensures value { (result ≡ length (start_of moved)) × (result ≤ 56) }
{
    let end = put_number(out, 0, b"version ", moved.version);
    put_number(out, end, b", ", moved.rows)
}

// The rest of the line, from `at` on: only a move back loses times. The promise names the way, so it is a value here and no closure.
fn put_rest(out: &mut [u8], at: usize, way: Way, lost: u64) -> usize
    requires { at + 40 ≤ length out.old }
    ensures out_after { out.new ≡ overlay out.old at (rest_of way lost) }
    ensures value { (result ≡ at + length (rest_of way lost)) × (result ≤ at + 40) }
{
    match way {
        Way::Forward => {
            field::copy(b" rows\n", 0, 6, out, at);
            at + 6
        }
        Way::Back => {
            let end = put_number(out, at, b" rows, ", lost);
            field::copy(b" times lost\n", 0, 12, out, end);
            end + 12
        }
    }
}

// The line to the front of `out`; answers its length. The promise names the way, so it is a value here too.
pub fn put(out: &mut [u8], way: Way, moved: Moved) -> usize
    requires { line_size ≤ length out.old }
    ensures out_after { out.new ≡ overlay out.old 0 (line_of way moved) }
    ensures value { (result ≡ length (line_of way moved)) × (result ≤ line_size) }
{
    let end = put_start(out, moved);
    put_rest(out, end, way, moved.lost)
}
