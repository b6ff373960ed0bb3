// Records taken from bytes of their letter's length. `time` and `condition` are two fields of a width each.
ghost use Rattle.std.specs.Prelude.{◌≡◌, ◌+◌, ◌*◌, ◌≤◌, length};
ghost use Rattle.field.specs.Bytes.{part, be};
ghost use Rattle.message.specs.Layout.{values};
ghost use Rattle.message.specs.Letters.{stamp_rows, stamp_of, system_event_rows, system_event_of, directory_rows, directory_of, trading_action_rows, trading_action_of, whole_quote_rows, whole_quote_of, one_side_rows, one_side_of, map_quote, map_side, end_of_replay_rows, end_of_replay_of, directory_letter, end_of_replay_letter, system_event_letter, trading_action_letter};

use crate::width::Width;
use crate::{
    Directory, EndOfReplay, OneSide, Quote, Side, Stamp, SystemEvent, TradingAction, entry,
    lengths, numbers,
};
use field::decimal;

pub fn time(bytes: &[u8]) -> u64
    requires { 11 ≤ length bytes.now }
    ensures { result ≡ be (part bytes.now 3 8) }
{
    field::read::<u64>(bytes, 3)
}

pub fn condition(bytes: &[u8]) -> u8
    requires { 16 ≤ length bytes.now }
    ensures { result ≡ be (part bytes.now 15 1) }
{
    field::read::<u8>(bytes, 15)
}

fn stamp(bytes: &[u8]) -> Stamp
    requires { 11 ≤ length bytes.now }
    ensures { result ≡ stamp_of (values stamp_rows bytes.now) }
{
    Stamp {
        tracking: field::read::<u16>(bytes, 1),
        time: time(bytes),
    }
}

pub fn system_event(bytes: &[u8]) -> SystemEvent
    requires { system_event_letter.size ≤ length bytes.now }
    ensures { result ≡ system_event_of (values system_event_rows bytes.now) }
{
    SystemEvent {
        stamp: stamp(bytes),
        code: field::read::<u8>(bytes, 11),
    }
}

pub fn directory(bytes: &[u8]) -> Directory
    requires { directory_letter.size ≤ length bytes.now }
    ensures { result ≡ directory_of (values directory_rows bytes.now) }
{
    Directory {
        stamp: stamp(bytes),
        instrument: entry::instrument(&bytes[11..lengths::DIRECTORY]),
    }
}

pub fn trading_action(bytes: &[u8]) -> TradingAction
    requires { trading_action_letter.size ≤ length bytes.now }
    ensures { result ≡ trading_action_of (values trading_action_rows bytes.now) }
{
    TradingAction {
        stamp: stamp(bytes),
        id: field::read::<u32>(bytes, 11),
        state: field::read::<u8>(bytes, 15),
    }
}

pub fn quote<T: Width>(bytes: &[u8]) -> Quote<T>
    requires { 16 + 10 * T.width ≤ length bytes.now }
    ensures { map_quote T.number result ≡ whole_quote_of (values (whole_quote_rows T.width T.form.keeps) bytes.now) }
{
    Quote {
        stamp: stamp(bytes),
        id: field::read::<u32>(bytes, 11),
        condition: condition(bytes),
        bid: numbers::read::<T>(bytes, 16),
        ask: numbers::read::<T>(bytes, 16 + 5 * T::size()),
    }
}

pub fn side<T: Width>(bytes: &[u8], side: Side) -> OneSide<T>
    requires { 16 + 5 * T.width ≤ length bytes.now }
    ensures { map_side T.number result ≡ one_side_of side (values (one_side_rows T.width T.form.keeps) bytes.now) }
{
    OneSide {
        stamp: stamp(bytes),
        id: field::read::<u32>(bytes, 11),
        condition: condition(bytes),
        side,
        numbers: numbers::read::<T>(bytes, 16),
    }
}

// Characters that write no number give 0, which breaks the record's rule.
pub fn end_of_replay(bytes: &[u8]) -> EndOfReplay
    requires { end_of_replay_letter.size ≤ length bytes.now }
    ensures { result ≡ end_of_replay_of (values end_of_replay_rows bytes.now) }
{
    match decimal::number_before_spaces(bytes, 1, 20) {
        Some(number) => EndOfReplay { number },
        None => EndOfReplay { number: 0 },
    }
}
