// The listing's text, a line at a time.
#![tactic(auto)]

ghost use Rattle.std.specs.Prelude.{◌≡◌, ◌++◌, ◌+◌, ◌≤◌, cond, eqb, length};
ghost use Rattle.field.specs.Decimal.{chars};
ghost use Rattle.row.specs.Fields.{row_size};
ghost use Rattle.table.specs.Memory.{Fitting};
ghost use Rattle.listing.specs.Lines.{ending_of, line_end, next_line, dash, dollars, price_text, state_text, side_text, row_line, last_line, line_in, Put, Written, Short, shown_of};

use message::Side;
use row::fields;

// No line is longer.
pub const LINE_SIZE: usize = 80;

// What there is to show for the number of a line. Three ways with names of their own, of which two are no errors of one kind.
#[derive(Clone, Copy, Debug, PartialEq, Eq)]
pub enum Shown {
    // A line of so many bytes.
    Line(usize),
    // The listing has no such line.
    Past,
    // Memory of the wrong length, or more rows than it has.
    Unfit,
}

// The bytes of a line, and zeros behind them: fixed memory, with no heap, whose length stands in `shown`, as `nelqubat_line` hands it on to C.
#[derive(Clone, Copy, Debug, PartialEq, Eq)]
pub struct Text {
    pub text: [u8; LINE_SIZE],
    pub shown: Shown,
}

// How the input ended.
#[derive(Clone, Copy, Debug, PartialEq, Eq)]
pub enum Ending {
    RanOut,
    Ended,
    Refused(u8),
}

// How a listing ends for a reader: the number of the refusal that stands, 0 for none, and whether the session has ended.
pub fn ending_for(refusal: u8, ended: bool) -> Ending
    ensures { result ≡ ending_of refusal ended }
{
    if refusal != 0 {
        return Ending::Refused(refusal);
    }
    if ended {
        return Ending::Ended;
    }
    Ending::RanOut
}

// Each of the functions below puts its text from `at` on, and answers where it ends, which is where the next one begins: a place, not a part of the
// buffer, so that one contract (`Put`) says of each what it leaves of the whole. A row is a slice, as the functions of `row` take it.

fn number(out: &mut [u8], at: usize, v: u64) -> usize
    requires { at + 20 ≤ length out.old }
    ensures { Put out.old at (chars v) out.new result 20 }
{
    let n = field::decimal::digit_count(v);
    field::decimal::write_digits(out, at, n, v);
    at + n
}

fn put_dollars(out: &mut [u8], at: usize, price: u32) -> usize
    requires { at + 25 ≤ length out.old }
    ensures { Put out.old at (dollars price) out.new result 25 }
{
    let whole = price as u64;
    let point = number(out, at, whole / 10000);
    field::write::<u8>(out, point, b'.');
    field::decimal::write_digits(out, point + 1, 4, whole);
    point + 5
}

// `none` where there is no price, which is not `-`, a side that was never seen.
fn put_price(out: &mut [u8], at: usize, price: Option<u32>) -> usize
    requires { at + 25 ≤ length out.old }
    ensures { Put out.old at (price_text price) out.new result 25 }
{
    match price {
        Some(n) => put_dollars(out, at, n),
        None => {
            field::put::<4>(out, at, b"none");
            at + 4
        }
    }
}

fn state_mark(state: u8) -> u8
    ensures { result ≡ cond (eqb state 0) dash state }
{
    if state == 0 {
        return b'-';
    }
    state
}

fn put_state(out: &mut [u8], at: usize, row: &[u8]) -> usize
    requires { (at + 2 ≤ length out.old) × (row_size ≤ length row.now) }
    ensures { Put out.old at (state_text row.now) out.new result 2 }
{
    let state = state_mark(fields::state(row));
    field::write::<u8>(out, at, b' ');
    field::write::<u8>(out, at + 1, state);
    at + 2
}

fn put_side(out: &mut [u8], at: usize, row: &[u8], side: Side) -> usize
    requires { (at + 26 ≤ length out.old) × (row_size ≤ length row.now) }
    ensures { Put out.old at (side_text side row.now) out.new result 26 }
{
    let seen = fields::has_seen(side, fields::sides(row));
    let price = fields::price(row, side);
    field::write::<u8>(out, at, b' ');
    if seen {
        return put_price(out, at + 1, price);
    }
    field::write::<u8>(out, at + 1, b'-');
    at + 2
}

fn row_line(row: &[u8], out: &mut [u8; LINE_SIZE]) -> usize
    requires { row_size ≤ length row.now }
    ensures { Written out.old (row_line row.now) out.new result }
{
    let id = fields::id(row) as u64;
    let state = number(out, 0, id);
    let bid = put_state(out, state, row);
    let ask = put_side(out, bid, row, Side::Bid);
    let end = put_side(out, ask, row, Side::Ask);
    field::write::<u8>(out, end, b'\n');
    end + 1
}

// A word, a number and the line's end.
fn word_and_number(word: &[u8], v: u64, out: &mut [u8; LINE_SIZE]) -> usize
    requires { length word.now ≤ 8 }
    ensures { Written out.old (word.now ++ (chars v ++ line_end)) out.new result }
{
    let n = word.len();
    field::copy(word, 0, n, out, 0);
    let end = number(out, n, v);
    field::write::<u8>(out, end, b'\n');
    end + 1
}

// A word and the line's end.
fn word_alone(word: &[u8], out: &mut [u8; LINE_SIZE]) -> usize
    requires { length word.now ≤ 8 }
    ensures { Written out.old (word.now ++ line_end) out.new result }
{
    let n = word.len();
    field::copy(word, 0, n, out, 0);
    field::write::<u8>(out, n, b'\n');
    n + 1
}

fn last_line(ending: Ending, out: &mut [u8; LINE_SIZE]) -> usize
    ensures { Written out.old (last_line ending) out.new result }
{
    match ending {
        Ending::RanOut => word_alone(b"ok", out),
        Ending::Ended => word_alone(b"end", out),
        Ending::Refused(n) => word_and_number(b"refused ", n as u64, out),
    }
}

fn next_line(next: u64, out: &mut [u8; LINE_SIZE]) -> usize
    ensures { Written out.old (next_line next) out.new result }
{
    word_and_number(b"next ", next, out)
}

fn some_line(
    k: usize,
    next: u64,
    rows: usize,
    table: &[u8],
    ending: Ending,
    out: &mut [u8; LINE_SIZE],
) -> usize
    requires { Fitting rows table.now }
    ensures { Written out.old (line_in k next rows table.now ending) out.new result }
{
    if k == 0 {
        return next_line(next, out);
    }
    if k <= rows {
        let from = (k - 1) * row::ROW_SIZE;
        let to = from + row::ROW_SIZE;
        return row_line(&table[from..to], out);
    }
    last_line(ending, out)
}

// Line k of the listing.
pub fn line(k: usize, next: u64, rows: usize, table: &[u8], ending: Ending) -> Text
    ensures { (result ≡ shown_of k next rows table.now ending) × Short result.shown }
{
    let mut text = [0; LINE_SIZE];
    if !table::rows_fit(rows, table) {
        return Text {
            text,
            shown: Shown::Unfit,
        };
    }
    if rows + 1 < k {
        return Text {
            text,
            shown: Shown::Past,
        };
    }
    let size = some_line(k, next, rows, table, ending, &mut text);
    Text {
        text,
        shown: Shown::Line(size),
    }
}
