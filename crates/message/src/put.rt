// Records put into bytes, from the start of the memory that is lent.
ghost use Rattle.std.specs.Prelude.{◌≡◌, ◌∷◌, ◌+◌, ◌*◌, ◌≤◌, length};
ghost use Rattle.field.specs.Bytes.{overlay};
ghost use Rattle.message.specs.Layout.{bytes_for};
ghost use Rattle.message.specs.Letters.{letter_for, stamp_rows, stamp_fields, system_event_rows, system_event_fields, directory_rows, directory_fields, quote_rows, quote_fields, trading_action_rows, trading_action_fields, whole_quote_rows, whole_quote_fields, one_side_rows, one_side_fields, map_quote, map_side, end_of_replay_rows, end_of_replay_fields, directory_letter, end_of_replay_letter, system_event_letter, trading_action_letter};
ghost use Rattle.message.specs.Message.{bytes_of};

use crate::width::Width;
use crate::{
    Directory, EndOfReplay, Message, OneSide, Quote, Stamp, SystemEvent, Texts, TradingAction,
    entry, lengths, numbers,
};
use field::decimal;

// The letter and the stamp: eleven bytes.
fn stamp(out: &mut [u8], letter: u8, s: Stamp)
    requires { 11 ≤ length out.old }
    ensures { out.new ≡ overlay out.old 0 (letter ∷ bytes_for stamp_rows (stamp_fields s)) }
{
    field::write::<u8>(out, 0, letter);
    field::write::<u16>(out, 1, s.tracking);
    field::write::<u64>(out, 3, s.time);
}

// What stands before a quote's sides, and all of a trading action: letter, stamp, id, and a mark.
fn head(out: &mut [u8], letter: u8, s: Stamp, id: u32, mark: u8)
    requires { 16 ≤ length out.old }
    ensures { out.new ≡ overlay out.old 0 (letter ∷ bytes_for quote_rows (quote_fields s id mark)) }
{
    stamp(out, letter, s);
    field::write::<u32>(out, 11, id);
    field::write::<u8>(out, 15, mark);
}

fn system_event(out: &mut [u8], m: SystemEvent)
    requires { system_event_letter.size ≤ length out.old }
    ensures { out.new ≡ overlay out.old 0 (83 ∷ bytes_for system_event_rows (system_event_fields m)) }
{
    let s = m.stamp;
    stamp(out, b'S', s);
    field::write::<u8>(out, 11, m.code);
}

fn directory(out: &mut [u8], m: Directory, t: Texts)
    requires { directory_letter.size ≤ length out.old }
    ensures { out.new ≡ overlay out.old 0 (109 ∷ bytes_for directory_rows (directory_fields m t)) }
{
    let s = m.stamp;
    let i = m.instrument;
    stamp(out, b'm', s);
    entry::put(&mut out[11..lengths::DIRECTORY], i, t);
}

fn trading_action(out: &mut [u8], m: TradingAction)
    requires { trading_action_letter.size ≤ length out.old }
    ensures { out.new ≡ overlay out.old 0 (72 ∷ bytes_for trading_action_rows (trading_action_fields m)) }
{
    let s = m.stamp;
    head(out, b'H', s, m.id, m.state);
}

fn quote<T: Width>(out: &mut [u8], m: Quote<T>)
    requires { 16 + 10 * T.width ≤ length out.old }
    ensures { out.new ≡ overlay out.old 0 (T.form.quote_code ∷ bytes_for (whole_quote_rows T.width T.form.keeps) (whole_quote_fields (map_quote T.number m))) }
{
    head(out, T::quote_code(), m.stamp, m.id, m.condition);
    numbers::put(out, 16, m.bid);
    numbers::put(out, 16 + 5 * T::size(), m.ask);
}

fn side<T: Width>(out: &mut [u8], m: OneSide<T>)
    requires { 16 + 5 * T.width ≤ length out.old }
    ensures { out.new ≡ overlay out.old 0 (T.form.side_code m.side ∷ bytes_for (one_side_rows T.width T.form.keeps) (one_side_fields (map_side T.number m))) }
{
    head(out, T::side_code(m.side), m.stamp, m.id, m.condition);
    numbers::put(out, 16, m.numbers);
}

fn end_of_replay(out: &mut [u8], m: EndOfReplay)
    requires { end_of_replay_letter.size ≤ length out.old }
    ensures { out.new ≡ overlay out.old 0 (77 ∷ bytes_for end_of_replay_rows (end_of_replay_fields m)) }
{
    field::write::<u8>(out, 0, b'M');
    decimal::write_number_before_spaces(out, 1, 20, m.number);
}

pub fn message(message: Message, texts: Texts, out: &mut [u8])
    requires { (letter_for message).size ≤ length out.old }
    ensures { out.new ≡ overlay out.old 0 (bytes_of message texts) }
{
    match message {
        Message::SystemEvent(m) => system_event(out, m),
        Message::Directory(m) => directory(out, m, texts),
        Message::TradingAction(m) => trading_action(out, m),
        Message::ShortQuote(m) => quote(out, m),
        Message::LongQuote(m) => quote(out, m),
        Message::ShortSide(m) => side(out, m),
        Message::LongSide(m) => side(out, m),
        Message::EndOfReplay(m) => end_of_replay(out, m),
    }
}
