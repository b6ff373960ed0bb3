// Bytes tested where they lie.
ghost use Rattle.std.specs.Prelude.{◌≡◌, ◌≤◌, length};
ghost use Rattle.message.specs.Layout.{values, keeps_all};
ghost use Rattle.message.specs.Letters.{letters, letter_in, end_of_replay_rows, end_of_replay_of};
ghost use Rattle.message.specs.Feed.{Sized, listed_length};
ghost use Rattle.message.specs.Message.{read_as, read_of};
ghost use Rattle.message.specs.Test.{tested, checked, number_in, quote_letters, quote_length, prices_keep};

use crate::{Refusal, codes, entry, lengths, take};
use field::limits;

// The number of an M, 0 where its characters write none.
pub fn number(bytes: &[u8]) -> u64
    requires { 21 ≤ length bytes.now }
    ensures { result ≡ (end_of_replay_of (values end_of_replay_rows bytes.now)).number }
{
    take::end_of_replay(&bytes[0..21]).number
}

// The length of a quote's letter; none for any other letter.
pub fn quote_length(letter: u8) -> Option<usize>
    ensures { result ≡ listed_length (letter_in quote_letters letter) }
{
    // A match on the letters, which compiles to comparisons; the table of lengths would be a loop.
    match letter {
        b'q' => Some(lengths::SHORT_QUOTE),
        b'Q' => Some(lengths::LONG_QUOTE),
        b'b' => Some(lengths::SHORT_SIDE),
        b'a' => Some(lengths::SHORT_SIDE),
        b'B' => Some(lengths::LONG_SIDE),
        b'A' => Some(lengths::LONG_SIDE),
        _ => None,
    }
}

// The prices of a long form: its letter is a capital.
fn prices_keep(letter: u8, bytes: &[u8]) -> bool
    requires { (quote_length letter ≡ 0 → ⊥) × (length bytes.now ≡ quote_length letter) }
    ensures { result ≡ prices_keep letter bytes.now }
{
    if 97 <= letter {
        return true;
    }
    if !limits::price_keeps(bytes, 20) {
        return false;
    }
    if letter != b'Q' {
        return true;
    }
    limits::price_keeps(bytes, 40)
}

// Bytes with the letter of a quote, whose length is `size`. It is small, and compiles into its callers.
pub fn quote(letter: u8, size: usize, bytes: &[u8]) -> Result<(), Refusal>
    requires { (size ≡ quote_length letter) × (size ≡ 0 → ⊥) }
    ensures { result ≡ checked (read_as (letter_in letters letter) bytes.now) }
{
    if bytes.len() != size {
        return Err(Refusal::WrongLength);
    }
    if !limits::time_keeps(bytes, 3) {
        return Err(Refusal::BadField);
    }
    if !codes::is_condition(field::read::<u8>(bytes, 15)) {
        return Err(Refusal::BadField);
    }
    if !prices_keep(letter, bytes) {
        return Err(Refusal::BadField);
    }
    Ok(())
}

// Bytes of the right length whose letter is no quote's: three functions ask so of a plain byte, which the reader hands on as it lies.
fn fields_keep(letter: u8, bytes: &[u8]) -> bool
    requires { (quote_length letter ≡ 0) × Sized (letter_in letters letter) bytes.now }
    ensures { result ≡ keeps_all (letter_in letters letter).rows (values (letter_in letters letter).rows bytes.now) }
{
    // A function for each letter would take another table of them: the four tests differ, and a match says which is whose.
    match letter {
        b'S' => limits::time_keeps(bytes, 3) & codes::is_event(field::read::<u8>(bytes, 11)),
        b'm' => limits::time_keeps(bytes, 3) & entry::keep_bytes(&bytes[11..63]),
        b'H' => limits::time_keeps(bytes, 3) & codes::is_state(field::read::<u8>(bytes, 15)),
        _ => limits::number_in_range(number(bytes)),
    }
}

// The length of a letter that is no quote's; none for one that is not listed.
fn rare_length(letter: u8) -> Option<usize>
    requires { quote_length letter ≡ 0 }
    ensures { result ≡ listed_length (letter_in letters letter) }
{
    // A match: what it answers is all that a table of letters and lengths would say.
    match letter {
        b'S' => Some(lengths::SYSTEM_EVENT),
        b'm' => Some(lengths::DIRECTORY),
        b'H' => Some(lengths::TRADING_ACTION),
        b'M' => Some(lengths::END_OF_REPLAY),
        _ => None,
    }
}

// Bytes whose letter is no quote's. They are taken as a part of themselves, so that their place and length are handed over in registers.
pub fn rarer(letter: u8, bytes: &[u8]) -> Result<(), Refusal>
    requires { quote_length letter ≡ 0 }
    ensures { result ≡ checked (read_as (letter_in letters letter) bytes.now) }
{
    let whole = &bytes[..];
    let Some(size) = rare_length(letter) else {
        return Err(Refusal::UnknownLetter);
    };
    if whole.len() != size {
        return Err(Refusal::WrongLength);
    }
    if fields_keep(letter, whole) {
        return Ok(());
    }
    Err(Refusal::BadField)
}

// 0 for bytes that pass, or the number of the refusal.
fn number_of(r: Result<(), Refusal>) -> u32
    ensures { result ≡ number_in r }
{
    match r {
        Ok(()) => 0,
        Err(r) => u8::from(r) as u32,
    }
}

// The test of any bytes: 0 for a message, or the number of the refusal, which `nelqubat_read` gives to C. As a Result it costs the
// reading of a record 189 instructions for 185.
pub fn message(bytes: &[u8]) -> u32
    ensures { result ≡ tested (read_of bytes.now) }
{
    if bytes.len() == 0 {
        return 10;
    }
    let letter = bytes[0];
    match quote_length(letter) {
        Some(size) => number_of(quote(letter, size, bytes)),
        None => number_of(rarer(letter, bytes)),
    }
}
