// The record of a message laid straight from its bytes, which have passed their test. Message and record stay two slices: each move goes from one to
// the other, `put` says what an array costs, and a message may be longer than the letter that is moved.
ghost use Rattle.std.specs.Prelude.{◌≡◌, ◌∷◌, ◌+◌, ◌*◌, ◌≤◌, length, take, drop, get_or};
ghost use Rattle.message.specs.Layout.{values};
ghost use Rattle.message.specs.Letters.{letters, letter_in, end_of_replay_rows, stamp_rows, instrument_rows, directory_rows, quote_rows, system_event_rows, numbers_rows, whole_quote_rows, one_side_rows};
ghost use Rattle.record.specs.Places.{record_size, letter_place, stamp_places, instrument_places, directory_places, end_of_replay_places, head_places, system_event_places, side_places, whole_quote_places, one_side_places};
ghost use Rattle.record.specs.Record.{laid, laid_from};
ghost use Rattle.message.specs.Feed.{Sized};

use message::width::Width;
use message::{Side, numbers};

// The letter and the stamp.
fn stamp(bytes: &[u8], out: &mut [u8])
    requires { (11 ≤ length bytes.now) × (record_size ≤ length out.old) }
    ensures { out.new ≡ laid (letter_place ∷ stamp_places) (values (letter_place ∷ stamp_rows) bytes.now) out.old }
{
    field::carry::<1>(bytes, 0, out, 0);
    field::carry::<2>(bytes, 1, out, 2);
    field::carry::<8>(bytes, 3, out, 8);
}

// H, and a quote before its sides.
fn head(bytes: &[u8], out: &mut [u8])
    requires { (16 ≤ length bytes.now) × (record_size ≤ length out.old) }
    ensures { out.new ≡ laid (letter_place ∷ head_places) (values (letter_place ∷ quote_rows) bytes.now) out.old }
{
    stamp(bytes, out);
    field::carry::<4>(bytes, 11, out, 4);
    field::carry::<1>(bytes, 15, out, 1);
}

// The numbers of a side, to the low bytes of each place of four. Those of four bytes fill their places, and go together.
fn numbers<T: Width>(bytes: &[u8], from: usize, out: &mut [u8], at: usize)
    requires { (from + 5 * T.width ≤ length bytes.now) × (at + 20 ≤ length out.old) }
    ensures { out.new ≡ laid (side_places T.width at) (values (numbers_rows T.width T.form.keeps from) bytes.now) out.old }
{
    let size = T::size();
    if size == 4 {
        numbers::carry_long(bytes, from, out, at);
        return;
    }
    let low = at + (4 - size);
    field::write::<T>(out, low, field::read::<T>(bytes, from));
    field::write::<T>(out, low + 4, field::read::<T>(bytes, from + size));
    field::write::<T>(out, low + 8, field::read::<T>(bytes, from + 2 * size));
    field::write::<T>(out, low + 12, field::read::<T>(bytes, from + 3 * size));
    field::write::<T>(out, low + 16, field::read::<T>(bytes, from + 4 * size));
}

fn system_event(bytes: &[u8], out: &mut [u8])
    requires { (12 ≤ length bytes.now) × (record_size ≤ length out.old) }
    ensures { out.new ≡ laid (letter_place ∷ system_event_places) (values (letter_place ∷ system_event_rows) bytes.now) out.old }
{
    stamp(bytes, out);
    field::carry::<1>(bytes, 11, out, 1);
}

fn side<T: Width>(bytes: &[u8], side: Side, out: &mut [u8])
    requires { (16 + 5 * T.width ≤ length bytes.now) × (record_size ≤ length out.old) }
    ensures { out.new ≡ laid (letter_place ∷ one_side_places T.width side) (values (letter_place ∷ one_side_rows T.width T.form.keeps) bytes.now) out.old }
{
    let at = crate::side_at(side);
    head(bytes, out);
    numbers::<T>(bytes, 16, out, at);
}

fn quote<T: Width>(bytes: &[u8], out: &mut [u8])
    requires { (16 + 10 * T.width ≤ length bytes.now) × (record_size ≤ length out.old) }
    ensures { out.new ≡ laid (letter_place ∷ whole_quote_places T.width) (values (letter_place ∷ whole_quote_rows T.width T.form.keeps) bytes.now) out.old }
{
    head(bytes, out);
    numbers::<T>(bytes, 16, out, 24);
    numbers::<T>(bytes, 16 + 5 * T::size(), out, 44);
}

// Id, symbol and date of an instrument.
fn terms(bytes: &[u8], out: &mut [u8])
    requires { (63 ≤ length bytes.now) × (record_size ≤ length out.old) }
    ensures { out.new ≡ laid (take 5 instrument_places) (values (take 5 instrument_rows) bytes.now) out.old }
{
    field::carry::<4>(bytes, 11, out, 4);
    field::carry::<8>(bytes, 15, out, 75);
    field::carry::<2>(bytes, 23, out, 68);
    field::carry::<1>(bytes, 25, out, 70);
}

// Strike, option type and underlying.
fn middle(bytes: &[u8], out: &mut [u8])
    requires { (63 ≤ length bytes.now) × (record_size ≤ length out.old) }
    ensures { out.new ≡ laid (take 3 (drop 5 instrument_places)) (values (take 3 (drop 5 instrument_rows)) bytes.now) out.old }
{
    field::carry::<4>(bytes, 26, out, 64);
    field::carry::<1>(bytes, 30, out, 71);
    field::carry::<13>(bytes, 31, out, 83);
}

// Closing type, tradable, variation and reserved.
fn marks(bytes: &[u8], out: &mut [u8])
    requires { (63 ≤ length bytes.now) × (record_size ≤ length out.old) }
    ensures { out.new ≡ laid (drop 8 instrument_places) (values (drop 8 instrument_rows) bytes.now) out.old }
{
    field::carry::<2>(bytes, 44, out, 72);
    field::carry::<1>(bytes, 46, out, 74);
    field::carry::<16>(bytes, 47, out, 96);
}

fn directory(bytes: &[u8], out: &mut [u8])
    requires { (63 ≤ length bytes.now) × (record_size ≤ length out.old) }
    ensures { out.new ≡ laid (letter_place ∷ directory_places) (values (letter_place ∷ directory_rows) bytes.now) out.old }
{
    stamp(bytes, out);
    terms(bytes, out);
    middle(bytes, out);
    marks(bytes, out);
}

fn end_of_replay(bytes: &[u8], out: &mut [u8])
    requires { (21 ≤ length bytes.now) × (record_size ≤ length out.old) }
    ensures { out.new ≡ laid (letter_place ∷ end_of_replay_places) (values (letter_place ∷ end_of_replay_rows) bytes.now) out.old }
{
    field::carry::<1>(bytes, 0, out, 0);
    field::write::<u64>(out, 16, message::test::number(bytes));
}

// Bytes of any letter, of its length.
pub fn lay(bytes: &[u8], out: &mut [u8])
    requires { Sized (letter_in letters (get_or bytes.now 0 0)) bytes.now × (record_size ≤ length out.old) }
    ensures { out.new ≡ laid_from bytes.now out.old }
{
    // A match on the letter: a table of functions would stand beside the same ten lines.
    match bytes[0] {
        b'S' => system_event(bytes, out),
        b'm' => directory(bytes, out),
        b'H' => head(bytes, out),
        b'q' => quote::<u16>(bytes, out),
        b'Q' => quote::<u32>(bytes, out),
        b'b' => side::<u16>(bytes, Side::Bid, out),
        b'a' => side::<u16>(bytes, Side::Ask, out),
        b'B' => side::<u32>(bytes, Side::Bid, out),
        b'A' => side::<u32>(bytes, Side::Ask, out),
        _ => end_of_replay(bytes, out),
    }
}
