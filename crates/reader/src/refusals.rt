// The refusals of a call by name and by number, and those of the layers below among them.
ghost use Rattle.std.specs.Prelude.{◌≡◌};
ghost use Rattle.message.specs.Message as messages;
ghost use Rattle.packet.specs.Refusals.{fault_number};
ghost use Rattle.table.specs.Board as tables;
ghost use Rattle.reader.specs.Refusals.{refusal_number, standing, named};

use crate::Refusal;
use packet::Fault;

// Numbers and names by a match, here and below: each refusal has its own, and those of the table the one that it gives them.
impl From<Refusal> for u8 {
    ghost from_gives = { λ r n. n ≡ refusal_number r };

    fn from(r: Refusal) -> u8 {
        match r {
            Refusal::Unfit => 20,
            Refusal::BadPacketLength => 1,
            Refusal::UnknownPacket => 2,
            Refusal::WrongPlace => 3,
            Refusal::BadForm => 4,
            Refusal::NotNext => 5,
            Refusal::NumbersUsedUp => 6,
            Refusal::UnknownMessage => 10,
            Refusal::WrongLength => 11,
            Refusal::BadField => 12,
            Refusal::NoRow => u8::from(table::Refusal::NoRow),
            Refusal::NoQuotes => u8::from(table::Refusal::NoQuotes),
            Refusal::FixedField => u8::from(table::Refusal::FixedField),
            Refusal::TableFull => u8::from(table::Refusal::TableFull),
            Refusal::HighCeiling => 27,
        }
    }
}

// The refusal of that number, of those that may stand and 27. Any other number is `Unfit`, so this is no faithful `From<u8>`.
pub fn named(n: u8) -> Refusal
    ensures { result ≡ named n }
{
    match n {
        1 => Refusal::BadPacketLength,
        2 => Refusal::UnknownPacket,
        3 => Refusal::WrongPlace,
        4 => Refusal::BadForm,
        5 => Refusal::NotNext,
        6 => Refusal::NumbersUsedUp,
        10 => Refusal::UnknownMessage,
        11 => Refusal::WrongLength,
        12 => Refusal::BadField,
        13 => Refusal::NoRow,
        14 => Refusal::NoQuotes,
        15 => Refusal::FixedField,
        16 => Refusal::TableFull,
        27 => Refusal::HighCeiling,
        _ => Refusal::Unfit,
    }
}

// May the number stand in a handle?
pub fn stands(n: u8) -> bool
    ensures { result ≡ standing n }
{
    (n <= 6) | ((10 <= n) & (n <= 16))
}

impl From<Fault> for Refusal {
    ghost from_gives = { λ f r. refusal_number r ≡ fault_number f };

    fn from(f: Fault) -> Refusal {
        match f {
            Fault::BadLength => Refusal::BadPacketLength,
            Fault::UnknownLetter => Refusal::UnknownPacket,
            Fault::WrongPlace => Refusal::WrongPlace,
            Fault::BadForm => Refusal::BadForm,
            Fault::NotNext => Refusal::NotNext,
            Fault::NumbersUsedUp => Refusal::NumbersUsedUp,
        }
    }
}

impl From<table::Refusal> for Refusal {
    ghost from_gives = { λ t r. refusal_number r ≡ tables.refusal_number t };

    fn from(t: table::Refusal) -> Refusal {
        match t {
            table::Refusal::Unfit => Refusal::Unfit,
            table::Refusal::NoRow => Refusal::NoRow,
            table::Refusal::NoQuotes => Refusal::NoQuotes,
            table::Refusal::FixedField => Refusal::FixedField,
            table::Refusal::TableFull => Refusal::TableFull,
        }
    }
}

impl From<message::Refusal> for Refusal {
    ghost from_gives = { λ m r. refusal_number r ≡ messages.refusal_number m };

    fn from(m: message::Refusal) -> Refusal {
        match m {
            message::Refusal::UnknownLetter => Refusal::UnknownMessage,
            message::Refusal::WrongLength => Refusal::WrongLength,
            message::Refusal::BadField => Refusal::BadField,
        }
    }
}
