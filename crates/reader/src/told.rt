// What a step or a run tells: the kind of an answer, in the second byte of its number, and event memory. The reader by value reads them back.
ghost use Rattle.std.specs.Prelude.{◌≡◌, List, ℕ, ◌+◌, ◌%◌, eqb, length};
ghost use Rattle.field.specs.Bytes.{part, be};
ghost use Rattle.packet.specs.Stream as stream;
ghost use Rattle.packet.specs.Session as packets;
ghost use Rattle.record.specs.Places.{record_size};
ghost use Rattle.record.specs.Record.{record_of};
ghost use Rattle.handle.specs.Handle.{handle_size, refusal_field, with_field};
ghost use Rattle.reader.specs.Handles.{message_in, answer_in};
ghost use Rattle.reader.specs.Running.{why_of, why_in};
ghost use Rattle.reader.specs.Shapes.{Tellable, told_by, read_back, beside, quiet_heard};

use crate::{Event, StepAnswer, Texts, Why, no_text, refusals};
use packet::SESSION_SIZE;

// These are numbers and no enum: C reads them, and `HostSteps` and `HostRuns` name them.
pub const LOGIN: u32 = 256;

pub const REJECTED: u32 = 512;

pub const MESSAGE: u32 = 768;

pub const HEARTBEAT: u32 = 1024;

pub const END: u32 = 1280;

pub const SKIPPED: u32 = 1536;

pub const ENDED: u32 = 1792;

// With the number of the refusal in the low byte.
pub const REFUSED: u32 = 2048;

// A run has finished as many packets as it was asked for.
pub const CEILING: u32 = 2304;

// Refused by 20, and nothing was taken.
pub const UNFIT: u32 = REFUSED + 20;

// A ceiling that is too high, and nothing was taken.
pub const TOO_HIGH: u32 = REFUSED + 27;

// The upper half of an answer is the count of bytes taken.
pub const BYTE_TAKEN: u32 = 65536;

// Where the session of a login stands in event memory, behind its number.
pub const SESSION_AT: usize = 8;

// A packet is refused, and the refusal stands.
pub fn refuse(r: u8, handle: &mut [u8]) -> u32
    requires { length handle.old ≡ handle_size }
    ensures value { result ≡ 2048 + r }
    ensures handle_after { handle.new ≡ with_field refusal_field r handle.old }
{
    handle::put_refusal(r, handle);
    REFUSED + r as u32
}

// Is the number of a step that of an accepted message?
pub fn is_message(number: u32) -> bool
    ensures { result ≡ eqb (number % 65_536) 768 }
{
    number % BYTE_TAKEN == MESSAGE
}

// The record of the message that begins some bytes, by the number of its step.
pub fn tell_message(number: u32, bytes: &[u8], event: &mut [u8])
    requires { (number % 65_536 ≡ 768) × ((handle : List ℕ) × Tellable number handle bytes.now event.old) }
    ensures { (handle : List ℕ) → event.new ≡ told_by number handle bytes.now event.old }
{
    let end = (number / BYTE_TAKEN) as usize;
    record::put(&bytes[3..end], event);
}

// What is told of the packet that begins some bytes, by the number of its step and the handle after it.
pub fn tell(number: u32, handle: &[u8], bytes: &[u8], event: &mut [u8])
    requires { Tellable number handle.now bytes.now event.old }
    ensures { event.new ≡ told_by number handle.now bytes.now event.old }
{
    if is_message(number) {
        tell_message(number, bytes, event);
        return;
    }
    let kind = number % BYTE_TAKEN;
    if kind == LOGIN {
        handle::copy_login(handle, event);
        return;
    }
    if kind == REJECTED {
        field::write::<u8>(event, 0, bytes[3]);
    }
}

// An answer by name, and the texts beside it: `Stepping` promises zeros in the texts of an answer that has none, a refusal too.
#[derive(Clone, Copy)]
pub struct Heard {
    pub answer: StepAnswer,
    pub texts: Texts,
}

fn quiet(answer: StepAnswer) -> Heard
    ensures { result ≡ quiet_heard answer }
{
    Heard {
        answer,
        texts: no_text(),
    }
}

fn login(event: &[u8]) -> Heard
    requires { length event.now ≡ record_size }
    ensures { read_back result ≡ beside (stream.Event (packets.login (be (part event.now 0 8)) (part event.now 8 10))) }
{
    Heard {
        answer: StepAnswer::Event(Event::Login(field::read::<u64>(event, 0))),
        texts: Texts {
            session: field::bytes::<SESSION_SIZE>(event, SESSION_AT),
            message: message::no_texts(),
        },
    }
}

fn message(event: &[u8]) -> Heard
    ensures { read_back result ≡ beside (message_in (record_of event.now).taken (record_of event.now).texts) }
{
    let held = record::take(event);
    match held.taken {
        Some(m) => Heard {
            answer: StepAnswer::Event(Event::Message(m)),
            texts: Texts {
                session: [0; SESSION_SIZE],
                message: held.texts,
            },
        },
        None => quiet(StepAnswer::More),
    }
}

// The answer that a number and event memory tell.
pub fn read_back(number: u32, event: &[u8]) -> Heard
    requires { length event.now ≡ record_size }
    ensures { read_back result ≡ beside (answer_in number event.now) }
{
    let kind = number / 256 % 256;
    match kind {
        0 => quiet(StepAnswer::More),
        1 => login(event),
        2 => quiet(StepAnswer::Event(Event::Rejected(field::read::<u8>(event, 0)))),
        3 => message(event),
        4 => quiet(StepAnswer::Event(Event::Heartbeat)),
        5 => quiet(StepAnswer::Event(Event::End)),
        6 => quiet(StepAnswer::Event(Event::Skipped)),
        7 => quiet(StepAnswer::Ended),
        _ => quiet(StepAnswer::Refused(refusals::named((number % 256) as u8))),
    }
}

// Why a run stopped, by the lower half of its answer.
pub fn why_back(number: u32) -> Why
    ensures { why_of result ≡ why_in number }
{
    let kind = number / 256 % 256;
    match kind {
        0 => Why::More,
        7 => Why::Ended,
        9 => Why::Ceiling,
        _ => Why::Refused(refusals::named((number % 256) as u8)),
    }
}
