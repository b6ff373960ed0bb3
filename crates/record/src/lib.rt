// The record of a message in bytes: 112 of them, the same places for all letters, and 0 where a letter has no field.
#![tactic(auto)]

ghost use Rattle.std.specs.Prelude.{◌≡◌, ◌≤◌, length};
ghost use Rattle.message.specs.Message.{read_of};
ghost use Rattle.message.specs.Test.{tested};
ghost use Rattle.record.specs.Places.{record_size, side_at};
ghost use Rattle.record.specs.Record.{no_record, record_of, answered, read_to, read_answer, write_answer};

use message::{Message, Side, Texts};

mod back;
mod say;
mod wire;

pub const RECORD_SIZE: usize = 112;

// The answer for bytes that are no record, or break the rules of its fields: a number, as all that `read` and `write` answer, since
// `nelqubat_read` and `nelqubat_write` hand it to C.
const NO_RECORD: u32 = 26;

// What some bytes hold, with a directory's texts beside it; zeros beside any other, and beside none (`Record.no_record`): the texts
// stand outside the option, since `Record.record_of` says them of any bytes, and readers and demands speak of them so.
#[derive(Clone, Copy)]
pub struct Held {
    pub taken: Option<Message>,
    pub texts: Texts,
}

fn none() -> Held
    ensures { result ≡ no_record }
{
    Held {
        taken: None,
        texts: message::no_texts(),
    }
}

// Where the numbers of a side stand.
fn side_at(side: Side) -> usize
    ensures { (result ≡ side_at side) × (result ≤ 44) }
{
    // Two fixed places of a record, which are no part of what a side is in a message.
    match side {
        Side::Bid => 24,
        Side::Ask => 44,
    }
}

// The record of a message's bytes, which have passed their test. The memory stays a slice: turned into an array here, it costs
// `nelqubat_step` with one message 392 instructions for 389, and `nelqubat_read` 191 for 187. The bytes are handed on as a part of themselves, so
// that their place goes in a register.
pub fn put(bytes: &[u8], out: &mut [u8])
    requires { (tested (read_of bytes.now) ≡ 0) × (length out.old ≡ record_size) }
    ensures { out.new ≡ (read_to (read_of bytes.now).answer (read_of bytes.now).texts out.old).memory }
{
    field::fill(out, 0, RECORD_SIZE, 0);
    wire::lay(&bytes[..], out);
}

// The message of a record: none for bytes that are no record.
pub fn take(bytes: &[u8]) -> Held
    ensures { result ≡ record_of bytes.now }
{
    let Ok(kept) = <&[u8; RECORD_SIZE]>::try_from(bytes) else {
        return none();
    };
    let letter = kept[0];
    let Some(_) = message::lengths::length_of(letter) else {
        return none();
    };
    if !back::is_own(letter, kept) {
        return none();
    }
    say::message(letter, kept)
}

// A message's bytes read to its record: 0, or the number of a refusal, which leaves the record memory.
pub fn read(bytes: &[u8], memory: &mut [u8]) -> u32
    ensures { answered result memory.new ≡ read_answer bytes.now memory.old }
{
    if memory.len() != RECORD_SIZE {
        return 20;
    }
    let refusal = message::test::message(bytes);
    if refusal != 0 {
        return refusal;
    }
    put(bytes, memory);
    0
}

// A record written as its message's bytes: 256 times their count, or the number of a refusal, which leaves the output.
pub fn write(record: &[u8], out: &mut [u8]) -> u32
    ensures { answered result out.new ≡ write_answer «record».now out.old }
{
    let Ok(kept) = <&[u8; RECORD_SIZE]>::try_from(record) else {
        return 20;
    };
    let letter = kept[0];
    let Some(size) = message::lengths::length_of(letter) else {
        return NO_RECORD;
    };
    if !back::keep(letter, kept) {
        return NO_RECORD;
    }
    if !back::is_own(letter, kept) {
        return NO_RECORD;
    }
    if out.len() < size {
        return 25;
    }
    back::lay(letter, kept, out);
    size as u32 * 256
}
