// A message's bytes laid straight from its record, and what is asked of the record before that, where it lies.
ghost use Rattle.std.specs.Prelude.{◌≡◌, ◌&&◌, ◌∷◌, ◌+◌, ◌*◌, ◌≤◌, length, take, drop};
ghost use Rattle.field.specs.Bytes.{part, be};
ghost use Rattle.field.specs.Limits.{time_in_range};
ghost use Rattle.field.specs.Text.{every, is_zero};
ghost use Rattle.message.specs.Layout.{values, keeps_all};
ghost use Rattle.message.specs.Letters.{letters, letter_in, listed, conditions, end_of_replay_rows, stamp_rows, instrument_rows, directory_rows, quote_rows, system_event_rows, numbers_rows, whole_quote_rows, one_side_rows};
ghost use Rattle.record.specs.Places.{letter_place, stamp_places, instrument_places, directory_places, end_of_replay_places, head_places, system_event_places, side_places, high_places, whole_quote_places, one_side_places, record_letters};
ghost use Rattle.record.specs.Record.{laid, laid_back, is_own, clear};

use crate::RECORD_SIZE;
use field::{limits, text};
use message::width::Width;
use message::{Side, codes, entry, numbers};

// ---- the fields, each moved to its place in the message
// They are the moves of `wire` the other way. One function of both would be handed each move's two places and its width, which is all that these say.
// Record and output stay two arguments, since each move goes from one to the other, and the output may be longer than the letter that it has room for.

// The letter and the stamp.
fn stamp(kept: &[u8; RECORD_SIZE], out: &mut [u8])
    requires { 11 ≤ length out.old }
    ensures { out.new ≡ laid (letter_place ∷ stamp_rows) (values (letter_place ∷ stamp_places) kept.now) out.old }
{
    field::carry::<1>(kept, 0, out, 0);
    field::carry::<2>(kept, 2, out, 1);
    field::carry::<8>(kept, 8, out, 3);
}

// H, and a quote before its sides.
fn head(kept: &[u8; RECORD_SIZE], out: &mut [u8])
    requires { 16 ≤ length out.old }
    ensures { out.new ≡ laid (letter_place ∷ quote_rows) (values (letter_place ∷ head_places) kept.now) out.old }
{
    stamp(kept, out);
    field::carry::<4>(kept, 4, out, 11);
    field::carry::<1>(kept, 1, out, 15);
}

// The numbers of a side, from the low bytes of each place of four. Those of four bytes fill their places, and go together.
fn numbers<T: Width>(kept: &[u8], at: usize, out: &mut [u8], to: usize)
    requires { (at + 20 ≤ length kept.now) × (to + 5 * T.width ≤ length out.old) }
    ensures { out.new ≡ laid (numbers_rows T.width T.form.keeps to) (values (side_places T.width at) kept.now) out.old }
{
    let size = T::size();
    if size == 4 {
        numbers::carry_long(kept, at, out, to);
        return;
    }
    let low = at + (4 - size);
    field::write::<T>(out, to, field::read::<T>(kept, low));
    field::write::<T>(out, to + size, field::read::<T>(kept, low + 4));
    field::write::<T>(out, to + 2 * size, field::read::<T>(kept, low + 8));
    field::write::<T>(out, to + 3 * size, field::read::<T>(kept, low + 12));
    field::write::<T>(out, to + 4 * size, field::read::<T>(kept, low + 16));
}

fn system_event(kept: &[u8; RECORD_SIZE], out: &mut [u8])
    requires { 12 ≤ length out.old }
    ensures { out.new ≡ laid (letter_place ∷ system_event_rows) (values (letter_place ∷ system_event_places) kept.now) out.old }
{
    stamp(kept, out);
    field::carry::<1>(kept, 1, out, 11);
}

fn side<T: Width>(kept: &[u8; RECORD_SIZE], side: Side, out: &mut [u8])
    requires { 16 + 5 * T.width ≤ length out.old }
    ensures { out.new ≡ laid (letter_place ∷ one_side_rows T.width T.form.keeps) (values (letter_place ∷ one_side_places T.width side) kept.now) out.old }
{
    let at = crate::side_at(side);
    head(kept, out);
    numbers::<T>(kept, at, out, 16);
}

fn quote<T: Width>(kept: &[u8; RECORD_SIZE], out: &mut [u8])
    requires { 16 + 10 * T.width ≤ length out.old }
    ensures { out.new ≡ laid (letter_place ∷ whole_quote_rows T.width T.form.keeps) (values (letter_place ∷ whole_quote_places T.width) kept.now) out.old }
{
    head(kept, out);
    numbers::<T>(kept, 24, out, 16);
    numbers::<T>(kept, 44, out, 16 + 5 * T::size());
}

// Id, symbol and date of an instrument.
fn terms(kept: &[u8; RECORD_SIZE], out: &mut [u8])
    requires { 63 ≤ length out.old }
    ensures { out.new ≡ laid (take 5 instrument_rows) (values (take 5 instrument_places) kept.now) out.old }
{
    field::carry::<4>(kept, 4, out, 11);
    field::carry::<8>(kept, 75, out, 15);
    field::carry::<1>(kept, 68, out, 23);
    field::carry::<1>(kept, 69, out, 24);
    field::carry::<1>(kept, 70, out, 25);
}

// Strike, option type and underlying.
fn middle(kept: &[u8; RECORD_SIZE], out: &mut [u8])
    requires { 63 ≤ length out.old }
    ensures { out.new ≡ laid (take 3 (drop 5 instrument_rows)) (values (take 3 (drop 5 instrument_places)) kept.now) out.old }
{
    field::carry::<4>(kept, 64, out, 26);
    field::carry::<1>(kept, 71, out, 30);
    field::carry::<13>(kept, 83, out, 31);
}

// Closing type, tradable, variation and reserved.
fn marks(kept: &[u8; RECORD_SIZE], out: &mut [u8])
    requires { 63 ≤ length out.old }
    ensures { out.new ≡ laid (drop 8 instrument_rows) (values (drop 8 instrument_places) kept.now) out.old }
{
    field::carry::<1>(kept, 72, out, 44);
    field::carry::<1>(kept, 73, out, 45);
    field::carry::<1>(kept, 74, out, 46);
    field::carry::<16>(kept, 96, out, 47);
}

fn directory(kept: &[u8; RECORD_SIZE], out: &mut [u8])
    requires { 63 ≤ length out.old }
    ensures { out.new ≡ laid (letter_place ∷ directory_rows) (values (letter_place ∷ directory_places) kept.now) out.old }
{
    stamp(kept, out);
    terms(kept, out);
    middle(kept, out);
    marks(kept, out);
}

fn end_of_replay(kept: &[u8; RECORD_SIZE], out: &mut [u8])
    requires { 21 ≤ length out.old }
    ensures { out.new ≡ laid (letter_place ∷ end_of_replay_rows) (values (letter_place ∷ end_of_replay_places) kept.now) out.old }
{
    field::carry::<1>(kept, 0, out, 0);
    field::decimal::write_number_before_spaces(out, 1, 20, field::read::<u64>(kept, 16));
}

// The fields of any letter, to a message's length. This and the two below ask that the letter is listed, since a byte is what a record holds.
pub fn lay(letter: u8, kept: &[u8; RECORD_SIZE], out: &mut [u8])
    requires { ((letter_in letters letter).size ≡ 0 → ⊥) × ((letter_in letters letter).size ≤ length out.old) }
    ensures { out.new ≡ laid_back letter kept.now out.old }
{
    // A match on the letter: a table of functions would stand beside the same ten lines.
    match letter {
        b'S' => system_event(kept, out),
        b'm' => directory(kept, out),
        b'H' => head(kept, out),
        b'q' => quote::<u16>(kept, out),
        b'Q' => quote::<u32>(kept, out),
        b'b' => side::<u16>(kept, Side::Bid, out),
        b'a' => side::<u16>(kept, Side::Ask, out),
        b'B' => side::<u32>(kept, Side::Bid, out),
        b'A' => side::<u32>(kept, Side::Ask, out),
        _ => end_of_replay(kept, out),
    }
}

// ---- what is asked of the record before

// A run by its place and length, as the clauses of `field` name it.
fn zeros(kept: &[u8], from: usize, n: usize) -> bool
    requires { from + n ≤ length kept.now }
    ensures { result ≡ every is_zero (part kept.now from n) }
{
    text::only(kept, from, n, 0)
}

// Are the numbers of a side those of a short quote?
fn is_low(kept: &[u8], at: usize) -> bool
    requires { at + 20 ≤ length kept.now }
    ensures { result ≡ clear (high_places at) kept.now }
{
    zeros(kept, at, 2)
        & (zeros(kept, at + 4, 2)
            & (zeros(kept, at + 8, 2) & (zeros(kept, at + 12, 2) & zeros(kept, at + 16, 2))))
}

// Is every place 0 that is no field's?
pub fn is_own(letter: u8, kept: &[u8; RECORD_SIZE]) -> bool
    requires { (letter_in letters letter).size ≡ 0 → ⊥ }
    ensures { result ≡ is_own letter kept.now }
{
    // Each letter has its own gaps, of one to four runs and with sides between them: one line of a match for each.
    match letter {
        b'S' => zeros(kept, 4, 4) & zeros(kept, 16, 96),
        b'm' => zeros(kept, 1, 1) & zeros(kept, 16, 48),
        b'H' => zeros(kept, 16, 96),
        b'q' => zeros(kept, 16, 8) & (is_low(kept, 24) & (is_low(kept, 44) & zeros(kept, 64, 48))),
        b'Q' => zeros(kept, 16, 8) & zeros(kept, 64, 48),
        b'b' => zeros(kept, 16, 8) & (is_low(kept, 24) & zeros(kept, 44, 68)),
        b'a' => zeros(kept, 16, 28) & (is_low(kept, 44) & zeros(kept, 64, 48)),
        b'B' => zeros(kept, 16, 8) & zeros(kept, 44, 68),
        b'A' => zeros(kept, 16, 28) & zeros(kept, 64, 48),
        _ => zeros(kept, 1, 15) & zeros(kept, 24, 88),
    }
}

// The rules of a quote before its sides.
fn head_keeps(kept: &[u8; RECORD_SIZE]) -> bool
    ensures { result ≡ time_in_range (be (part kept.now 8 8)) && listed conditions (be (part kept.now 1 1)) }
{
    limits::time_keeps(kept, 8) & codes::is_condition(field::read::<u8>(kept, 1))
}

// Do the fields keep the rules of their letter?
pub fn keep(letter: u8, kept: &[u8; RECORD_SIZE]) -> bool
    requires { (letter_in letters letter).size ≡ 0 → ⊥ }
    ensures { result ≡ keeps_all (letter_in letters letter).rows (values (letter_in record_letters letter).rows kept.now) }
{
    // Each letter asks its own fields: one line of a match for each.
    match letter {
        b'S' => limits::time_keeps(kept, 8) & codes::is_event(field::read::<u8>(kept, 1)),
        b'm' => limits::time_keeps(kept, 8) & entry::keep_at(kept, 75, 68, 64, 71, 83, 72),
        b'H' => limits::time_keeps(kept, 8) & codes::is_state(field::read::<u8>(kept, 1)),
        b'q' => head_keeps(kept),
        b'Q' => head_keeps(kept) & (limits::price_keeps(kept, 28) & limits::price_keeps(kept, 48)),
        b'b' => head_keeps(kept),
        b'a' => head_keeps(kept),
        b'B' => head_keeps(kept) & limits::price_keeps(kept, 28),
        b'A' => head_keeps(kept) & limits::price_keeps(kept, 48),
        _ => limits::number_in_range(field::read::<u64>(kept, 16)),
    }
}
