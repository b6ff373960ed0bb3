// Bytes of a letter's length judged: the record that they make if every field is in its list or range, with its texts beside it.
// A quote's rules are tested before its numbers are taken, so that the compiler reads each number with one load.
ghost use Rattle.std.specs.Prelude.{◌≡◌, ◌&&◌, ◌+◌, ◌*◌, ◌≤◌, length};
ghost use Rattle.field.specs.Bytes.{part, be};
ghost use Rattle.field.specs.Limits.{time_in_range};
ghost use Rattle.message.specs.Layout.{values, keeps_all};
ghost use Rattle.message.specs.Feed.{Sized};
ghost use Rattle.message.specs.Letters.{listed, conditions, no_texts, letters, letter_in, directory_letter, directory_rows, system_event_letter, system_event_rows, trading_action_letter, trading_action_rows, quote_letter, whole_quote_rows, side_letter, one_side_rows, end_of_replay_letter, end_of_replay_rows};
ghost use Rattle.message.specs.Message.{accepted, read_fields};

use crate::width::Width;
use crate::{Message, Reading, Refusal, Side, entry, lengths, rules, take};

// A message that has no texts, read whole.
fn whole(m: Message) -> Reading
    ensures { result ≡ accepted m no_texts }
{
    Reading {
        answer: Ok(m),
        texts: crate::no_texts(),
    }
}

fn system_event(bytes: &[u8]) -> Reading
    requires { system_event_letter.size ≤ length bytes.now }
    ensures { result ≡ read_fields system_event_letter (values system_event_rows bytes.now) }
{
    let m = take::system_event(bytes);
    if rules::keep_system_event(m) {
        return whole(Message::SystemEvent(m));
    }
    crate::refuse(Refusal::BadField)
}

fn directory(bytes: &[u8]) -> Reading
    requires { directory_letter.size ≤ length bytes.now }
    ensures { result ≡ read_fields directory_letter (values directory_rows bytes.now) }
{
    let m = take::directory(bytes);
    let texts = entry::texts(&bytes[11..lengths::DIRECTORY]);
    if rules::keep_directory(m, texts) {
        return Reading {
            answer: Ok(Message::Directory(m)),
            texts,
        };
    }
    crate::refuse(Refusal::BadField)
}

fn trading_action(bytes: &[u8]) -> Reading
    requires { trading_action_letter.size ≤ length bytes.now }
    ensures { result ≡ read_fields trading_action_letter (values trading_action_rows bytes.now) }
{
    let m = take::trading_action(bytes);
    if rules::keep_trading_action(m) {
        return whole(Message::TradingAction(m));
    }
    crate::refuse(Refusal::BadField)
}

// The rules that every quote has, tested where it lies.
fn keep_head(bytes: &[u8]) -> bool
    requires { 16 ≤ length bytes.now }
    ensures { result ≡ time_in_range (be (part bytes.now 3 8)) && listed conditions (be (part bytes.now 15 1)) }
{
    rules::keep_head(take::time(bytes), take::condition(bytes))
}

// A letter's room is a premise, here and wherever a letter is read or put: an array's length can't be reckoned from the width.
fn keep_quote<T: Width>(bytes: &[u8]) -> bool
    requires { 16 + 10 * T.width ≤ length bytes.now }
    ensures { result ≡ keeps_all (whole_quote_rows T.width T.form.keeps) (values (whole_quote_rows T.width T.form.keeps) bytes.now) }
{
    let size = T::size();
    keep_head(bytes) & (T::price_keeps(bytes, 16 + size) & T::price_keeps(bytes, 16 + 6 * size))
}

fn keep_side<T: Width>(bytes: &[u8]) -> bool
    requires { 16 + 5 * T.width ≤ length bytes.now }
    ensures { result ≡ keeps_all (one_side_rows T.width T.form.keeps) (values (one_side_rows T.width T.form.keeps) bytes.now) }
{
    keep_head(bytes) & T::price_keeps(bytes, 16 + T::size())
}

fn quote<T: Width>(bytes: &[u8]) -> Reading
    requires { 16 + 10 * T.width ≤ length bytes.now }
    ensures { result ≡ read_fields (quote_letter T.width T.form) (values (whole_quote_rows T.width T.form.keeps) bytes.now) }
{
    if keep_quote::<T>(bytes) {
        return whole(T::quote(take::quote::<T>(bytes)));
    }
    crate::refuse(Refusal::BadField)
}

fn side<T: Width>(bytes: &[u8], side: Side) -> Reading
    requires { 16 + 5 * T.width ≤ length bytes.now }
    ensures { result ≡ read_fields (side_letter T.width T.form side) (values (one_side_rows T.width T.form.keeps) bytes.now) }
{
    if keep_side::<T>(bytes) {
        return whole(T::side(take::side::<T>(bytes, side)));
    }
    crate::refuse(Refusal::BadField)
}

fn end_of_replay(bytes: &[u8]) -> Reading
    requires { end_of_replay_letter.size ≤ length bytes.now }
    ensures { result ≡ read_fields end_of_replay_letter (values end_of_replay_rows bytes.now) }
{
    let m = take::end_of_replay(bytes);
    if rules::keep_end_of_replay(m) {
        return whole(Message::EndOfReplay(m));
    }
    crate::refuse(Refusal::BadField)
}

pub fn message(letter: u8, bytes: &[u8]) -> Reading
    requires { Sized (letter_in letters letter) bytes.now }
    ensures { result ≡ read_fields (letter_in letters letter) (values (letter_in letters letter).rows bytes.now) }
{
    match letter {
        b'S' => system_event(bytes),
        b'm' => directory(bytes),
        b'H' => trading_action(bytes),
        b'q' => quote::<u16>(bytes),
        b'Q' => quote::<u32>(bytes),
        b'b' => side::<u16>(bytes, Side::Bid),
        b'a' => side::<u16>(bytes, Side::Ask),
        b'B' => side::<u32>(bytes, Side::Bid),
        b'A' => side::<u32>(bytes, Side::Ask),
        _ => end_of_replay(bytes),
    }
}
