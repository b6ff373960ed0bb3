// The field rules: one test of a record serves reading and writing.
ghost use Rattle.std.specs.Prelude.{◌≡◌, ◌&&◌};
ghost use Rattle.field.specs.Limits.{time_in_range};
ghost use Rattle.message.specs.Layout.{keeps_all};
ghost use Rattle.message.specs.Letters.{listed, conditions, system_event_rows, system_event_fields, directory_rows, directory_fields, trading_action_rows, trading_action_fields, whole_quote_rows, whole_quote_fields, one_side_rows, one_side_fields, map_quote, map_side, end_of_replay_rows, end_of_replay_fields};
ghost use Rattle.message.specs.Message.{keeps};

use crate::width::Width;
use crate::{
    Directory, EndOfReplay, Message, OneSide, Quote, SystemEvent, Texts, TradingAction, codes,
    entry, prices,
};
use field::limits;

// The rules that every quote has.
pub fn keep_head(time: u64, condition: u8) -> bool
    ensures { result ≡ time_in_range time && listed conditions condition }
{
    limits::time_in_range(time) & codes::is_condition(condition)
}

pub fn keep_system_event(m: SystemEvent) -> bool
    ensures { result ≡ keeps_all system_event_rows (system_event_fields m) }
{
    limits::time_in_range(m.stamp.time) & codes::is_event(m.code)
}

pub fn keep_directory(m: Directory, t: Texts) -> bool
    ensures { result ≡ keeps_all directory_rows (directory_fields m t) }
{
    let instrument = m.instrument;
    limits::time_in_range(m.stamp.time) & entry::keep(instrument, t)
}

pub fn keep_trading_action(m: TradingAction) -> bool
    ensures { result ≡ keeps_all trading_action_rows (trading_action_fields m) }
{
    limits::time_in_range(m.stamp.time) & codes::is_state(m.state)
}

pub fn keep_quote<T: Width>(m: Quote<T>) -> bool
    ensures { result ≡ keeps_all (whole_quote_rows T.width T.form.keeps) (whole_quote_fields (map_quote T.number m)) }
{
    keep_head(m.stamp.time, m.condition) & (prices::keep(m.bid) & prices::keep(m.ask))
}

pub fn keep_side<T: Width>(m: OneSide<T>) -> bool
    ensures { result ≡ keeps_all (one_side_rows T.width T.form.keeps) (one_side_fields (map_side T.number m)) }
{
    keep_head(m.stamp.time, m.condition) & prices::keep(m.numbers)
}

pub fn keep_end_of_replay(m: EndOfReplay) -> bool
    ensures { result ≡ keeps_all end_of_replay_rows (end_of_replay_fields m) }
{
    limits::number_in_range(m.number)
}

pub fn keep(message: Message, texts: Texts) -> bool
    ensures { result ≡ keeps message texts }
{
    match message {
        Message::SystemEvent(m) => keep_system_event(m),
        Message::Directory(m) => keep_directory(m, texts),
        Message::TradingAction(m) => keep_trading_action(m),
        Message::ShortQuote(m) => keep_quote(m),
        Message::LongQuote(m) => keep_quote(m),
        Message::ShortSide(m) => keep_side(m),
        Message::LongSide(m) => keep_side(m),
        Message::EndOfReplay(m) => keep_end_of_replay(m),
    }
}
