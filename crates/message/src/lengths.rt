// The letters of the feed, each with its exact length: one list, for reading and writing.
ghost use Rattle.std.specs.Prelude.{◌≡◌};
ghost use Rattle.message.specs.Feed.{length_in, listed_length};
ghost use Rattle.message.specs.Letters.{letters, letter_in, letter_for};

use crate::Message;

// How long a message of each kind is.
pub const SYSTEM_EVENT: usize = 12;

pub const DIRECTORY: usize = 63;

pub const TRADING_ACTION: usize = 16;

pub const SHORT_QUOTE: usize = 36;

pub const LONG_QUOTE: usize = 56;

pub const SHORT_SIDE: usize = 26;

pub const LONG_SIDE: usize = 36;

pub const END_OF_REPLAY: usize = 21;

// Letters and lengths, by turns: the list that `Feed.length_table` makes of the ten letters, as the theorem `Feeds.table-length` has it.
pub const LENGTHS: [u8; 20] = [
    b'S',
    SYSTEM_EVENT as u8,
    b'm',
    DIRECTORY as u8,
    b'H',
    TRADING_ACTION as u8,
    b'q',
    SHORT_QUOTE as u8,
    b'Q',
    LONG_QUOTE as u8,
    b'b',
    SHORT_SIDE as u8,
    b'a',
    SHORT_SIDE as u8,
    b'B',
    LONG_SIDE as u8,
    b'A',
    LONG_SIDE as u8,
    b'M',
    END_OF_REPLAY as u8,
];

// What a table of letters and lengths, by turns, gives for a letter; 0 for one that is not listed, as the definition `Feed.length_in` says of any bytes.
pub fn length_in(table: &[u8], letter: u8) -> usize
    ensures { result ≡ length_in table.now letter }
{
    for i in 0..table.len() / 2 {
        if table[2 * i] == letter {
            return table[2 * i + 1] as usize;
        }
    }
    0
}

// The length of a letter of the feed; none for one that is not listed.
pub fn length_of(letter: u8) -> Option<usize>
    ensures { result ≡ listed_length (letter_in letters letter) }
{
    match length_in(&LENGTHS, letter) {
        0 => None,
        size => Some(size),
    }
}

pub fn length_for(message: Message) -> usize
    ensures { result ≡ (letter_for message).size }
{
    // A match on the variants: each has its constant, and a table would be a loop.
    match message {
        Message::SystemEvent(_) => SYSTEM_EVENT,
        Message::Directory(_) => DIRECTORY,
        Message::TradingAction(_) => TRADING_ACTION,
        Message::ShortQuote(_) => SHORT_QUOTE,
        Message::LongQuote(_) => LONG_QUOTE,
        Message::ShortSide(_) => SHORT_SIDE,
        Message::LongSide(_) => LONG_SIDE,
        Message::EndOfReplay(_) => END_OF_REPLAY,
    }
}
