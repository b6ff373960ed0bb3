// What the fields of a record's bytes say, by their letter: one reader for each kind. `message` asks for a record's bytes at least: an array
// would ask for exactly so many.
ghost use Rattle.std.specs.Prelude.{◌≡◌, ◌+◌, ◌≤◌, length};
ghost use Rattle.message.specs.Layout.{values};
ghost use Rattle.message.specs.Letters.{letter_in, no_texts, stamp_of, numbers_of, map_numbers, instrument_of, texts_of, system_event_letter, directory_letter, trading_action_letter, quote_letter, side_letter, end_of_replay_letter};
ghost use Rattle.record.specs.Places.{record_size, stamp_places, side_places, system_event_places, instrument_places, directory_places, head_places, whole_quote_places, one_side_places, end_of_replay_places, record_letter, record_letters};
ghost use Rattle.record.specs.Record.{held, said_by};

use crate::Held;
use message::width::Width;
use message::{
    Directory, EndOfReplay, Instrument, Message, OneSide, Quote, Side, SideNumbers, Stamp,
    SystemEvent, Texts, TradingAction, prices,
};

fn stamp(bytes: &[u8]) -> Stamp
    requires { record_size ≤ length bytes.now }
    ensures { result ≡ stamp_of (values stamp_places bytes.now) }
{
    Stamp {
        tracking: field::read::<u16>(bytes, 2),
        time: field::read::<u64>(bytes, 8),
    }
}

// The numbers of a side, from the low bytes of each place of four.
fn numbers<T: Width>(bytes: &[u8], at: usize) -> SideNumbers<T>
    requires { at + 20 ≤ length bytes.now }
    ensures { map_numbers T.number result ≡ numbers_of (values (side_places T.width at) bytes.now) }
{
    let low = at + (4 - T::size());
    SideNumbers {
        market: field::read::<T>(bytes, low),
        price: prices::price(field::read::<T>(bytes, low + 4)),
        size: field::read::<T>(bytes, low + 8),
        customer: field::read::<T>(bytes, low + 12),
        professional: field::read::<T>(bytes, low + 16),
    }
}

// A message that has no texts.
fn bare(m: Message) -> Held
    ensures { result ≡ held m no_texts }
{
    Held {
        taken: Some(m),
        texts: message::no_texts(),
    }
}

fn system_event(bytes: &[u8]) -> Held
    requires { record_size ≤ length bytes.now }
    ensures { result ≡ said_by (record_letter system_event_letter system_event_places) bytes.now }
{
    bare(Message::SystemEvent(SystemEvent {
        stamp: stamp(bytes),
        code: field::read::<u8>(bytes, 1),
    }))
}

fn instrument(bytes: &[u8]) -> Instrument
    requires { record_size ≤ length bytes.now }
    ensures { result ≡ instrument_of (values instrument_places bytes.now) }
{
    Instrument {
        id: field::read::<u32>(bytes, 4),
        year: field::read::<u8>(bytes, 68),
        month: field::read::<u8>(bytes, 69),
        day: field::read::<u8>(bytes, 70),
        strike: field::read::<u32>(bytes, 64),
        kind: field::read::<u8>(bytes, 71),
        closing: field::read::<u8>(bytes, 72),
        tradable: field::read::<u8>(bytes, 73),
        variation: field::read::<u8>(bytes, 74),
    }
}

fn texts(bytes: &[u8]) -> Texts
    requires { record_size ≤ length bytes.now }
    ensures { result ≡ texts_of (values instrument_places bytes.now) }
{
    Texts {
        symbol: field::bytes::<8>(bytes, 75),
        underlying: field::bytes::<13>(bytes, 83),
        reserved: field::bytes::<16>(bytes, 96),
    }
}

fn directory(bytes: &[u8]) -> Held
    requires { record_size ≤ length bytes.now }
    ensures { result ≡ said_by (record_letter directory_letter directory_places) bytes.now }
{
    Held {
        taken: Some(Message::Directory(Directory {
            stamp: stamp(bytes),
            instrument: instrument(bytes),
        })),
        texts: texts(bytes),
    }
}

fn trading_action(bytes: &[u8]) -> Held
    requires { record_size ≤ length bytes.now }
    ensures { result ≡ said_by (record_letter trading_action_letter head_places) bytes.now }
{
    bare(Message::TradingAction(TradingAction {
        stamp: stamp(bytes),
        id: field::read::<u32>(bytes, 4),
        state: field::read::<u8>(bytes, 1),
    }))
}

fn quote<T: Width>(bytes: &[u8]) -> Held
    requires { record_size ≤ length bytes.now }
    ensures { result ≡ said_by (record_letter (quote_letter T.width T.form) (whole_quote_places T.width)) bytes.now }
{
    bare(T::quote(Quote {
        stamp: stamp(bytes),
        id: field::read::<u32>(bytes, 4),
        condition: field::read::<u8>(bytes, 1),
        bid: numbers::<T>(bytes, 24),
        ask: numbers::<T>(bytes, 44),
    }))
}

fn side<T: Width>(bytes: &[u8], side: Side) -> Held
    requires { record_size ≤ length bytes.now }
    ensures { result ≡ said_by (record_letter (side_letter T.width T.form side) (one_side_places T.width side)) bytes.now }
{
    bare(T::side(OneSide {
        stamp: stamp(bytes),
        id: field::read::<u32>(bytes, 4),
        condition: field::read::<u8>(bytes, 1),
        side,
        numbers: numbers::<T>(bytes, crate::side_at(side)),
    }))
}

fn end_of_replay(bytes: &[u8]) -> Held
    requires { record_size ≤ length bytes.now }
    ensures { result ≡ said_by (record_letter end_of_replay_letter end_of_replay_places) bytes.now }
{
    bare(Message::EndOfReplay(EndOfReplay {
        number: field::read::<u64>(bytes, 16),
    }))
}

pub fn message(letter: u8, bytes: &[u8]) -> Held
    requires { record_size ≤ length bytes.now }
    ensures { result ≡ said_by (letter_in record_letters letter) bytes.now }
{
    // A match on the letter: a table of functions would stand beside the same eleven lines.
    match letter {
        b'S' => system_event(bytes),
        b'm' => directory(bytes),
        b'H' => trading_action(bytes),
        b'q' => quote::<u16>(bytes),
        b'Q' => quote::<u32>(bytes),
        b'b' => side::<u16>(bytes, Side::Bid),
        b'a' => side::<u16>(bytes, Side::Ask),
        b'B' => side::<u32>(bytes, Side::Bid),
        b'A' => side::<u32>(bytes, Side::Ask),
        b'M' => end_of_replay(bytes),
        _ => crate::none(),
    }
}
