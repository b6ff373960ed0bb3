// Packets from the server: framing, the packet table, the session line and its login. What a message does is not known here.
#![tactic(auto)]

ghost use Rattle.std.specs.Prelude.{◌≡◌, List, ℕ, ◌+◌, ◌≤◌, length};
ghost use Rattle.field.specs.Bytes.{part, overlay};
ghost use Rattle.packet.specs.Frame.{held_size, room_for, frame, front_of};
ghost use Rattle.packet.specs.Line.{session_size, login_size, login_session, fresh_line, waiting, logged_in, follows, login_of, BodyFits, meant_of, packet_of, is_message};
ghost use Rattle.packet.specs.declared.Line.{Line};

use crate::table::Meaning;

pub mod numbering;
mod table;

// The longest L.
pub const LONGEST_PACKET: usize = 256;

// The longest packet with its length bytes.
pub const HELD_SIZE: usize = LONGEST_PACKET + 2;

// A session's bytes, and the characters of a login's number.
pub const SESSION_SIZE: usize = 10;

const NUMBER_SIZE: usize = 20;

// What stands at the front of some bytes; of a whole packet, its L. Three ways with names of their own, of which two hand nothing on.
#[derive(Clone, Copy, Debug, PartialEq, Eq)]
pub enum Framing {
    Short,
    BadLength,
    Whole(usize),
}

// A session, and where the reader is in it: is the session known, is it logged in, the next number.
#[derive(Clone, Copy, Debug, PartialEq, Eq)]
pub struct Line {
    // Ten bytes beside `known`, not an option: handle and image hold them, known or not (handle `head_bytes`, image `session_bytes`).
    pub session: [u8; SESSION_SIZE],
    pub known: bool,
    pub logged: bool,
    pub next: u64,
}

// Why a packet is refused.
#[derive(Clone, Copy, Debug, PartialEq, Eq)]
pub enum Fault {
    BadLength,
    UnknownLetter,
    WrongPlace,
    BadForm,
    NotNext,
    NumbersUsedUp,
}

// What a whole packet is to a line.
#[derive(Clone, Copy, Debug, PartialEq, Eq)]
pub enum Packet {
    Login(u64),
    Rejected(u8),
    Message,
    Heartbeat,
    End,
    Skipped,
    Refused(Fault),
}

// What stands at the front of the bytes that are held or have come.
pub fn front(bytes: &[u8]) -> Framing
    ensures { result ≡ front_of (frame bytes.now) }
{
    if bytes.len() < 2 {
        return Framing::Short;
    }
    let size = field::read::<u16>(bytes, 0) as usize;
    if size < 1 {
        return Framing::BadLength;
    }
    if LONGEST_PACKET < size {
        return Framing::BadLength;
    }
    if bytes.len() - 2 < size {
        return Framing::Short;
    }
    Framing::Whole(size)
}

// How many bytes of a piece there is room for behind the held ones.
pub fn room(used: usize, len: usize) -> usize
    requires { used ≤ held_size }
    ensures { result ≡ room_for used len }
{
    len.min(HELD_SIZE - used)
}

// The held bytes, with the first n bytes of a piece behind those that are used. They lie in fixed memory with their count beside them.
pub fn joined(held: &[u8], used: usize, piece: &[u8], n: usize) -> [u8; HELD_SIZE]
    requires { (length held.now ≡ held_size) × ((used + n ≤ held_size) × (n ≤ length piece.now)) }
    ensures { result ≡ overlay held.now used (part piece.now 0 n) }
{
    let mut out = field::bytes::<HELD_SIZE>(held, 0);
    field::copy(piece, 0, n, &mut out, used);
    out
}

// Does a login with the body's session and the number n go on where the line stands?
fn login_follows(line: Line, body: &[u8], n: u64) -> bool
    requires { length body.now ≡ login_size }
    ensures { result ≡ follows line (login_session body.now) n }
{
    n == line.next && (!line.known || field::equal(&line.session, 0, body, 0, SESSION_SIZE))
}

// A login: its session stands first in the body, and then its number.
fn login(line: Line, body: &[u8]) -> Packet
    requires { length body.now ≡ login_size }
    ensures { result ≡ login_of line body.now }
{
    match field::decimal::number_after_spaces(body, SESSION_SIZE, NUMBER_SIZE) {
        None => Packet::Refused(Fault::BadForm),
        Some(n) if login_follows(line, body, n) => Packet::Login(n),
        Some(_) => Packet::Refused(Fault::NotNext),
    }
}

// A packet that is in place and of the right L, by its meaning.
fn meant(line: Line, body: &[u8], meaning: Meaning) -> Packet
    requires { BodyFits meaning (length body.now) }
    ensures { result ≡ meant_of line body.now meaning }
{
    match meaning {
        Meaning::LoginAccepted => login(line, body),
        Meaning::LoginRejected => Packet::Rejected(body[0]),
        Meaning::Message if numbering::none_left(line.next) => {
            Packet::Refused(Fault::NumbersUsedUp)
        }
        Meaning::Message => Packet::Message,
        Meaning::Heartbeat => Packet::Heartbeat,
        Meaning::EndOfSession => Packet::End,
        Meaning::Skipped => Packet::Skipped,
    }
}

// Refusals 2, 3 and 4 come in this order, and then what the packet's meaning asks.
pub fn judge(line: Line, letter: u8, body: &[u8]) -> Packet
    ensures { result ≡ packet_of line letter body.now }
{
    let Some((size, meaning, place)) = table::row_of(letter) else {
        return Packet::Refused(Fault::UnknownLetter);
    };
    if !table::in_place(place, line.logged) {
        return Packet::Refused(Fault::WrongPlace);
    }
    if !table::of_size(size, body) {
        return Packet::Refused(Fault::BadForm);
    }
    meant(line, body, meaning)
}

// Is a packet with that letter, whatever its body, a message that takes the next number?
pub fn is_message(logged: bool, next: u64, letter: u8) -> bool
    ensures { (l : Line) (body : List ℕ) → l.logged ≡ logged → l.next ≡ next → result ≡ is_message (packet_of l letter body) }
{
    match table::row_of(letter) {
        None => false,
        Some((_, meaning, place)) => {
            table::takes_number(meaning)
                & (table::in_place(place, logged) & !numbering::none_left(next))
        }
    }
}

impl Line {
    // No known session, which is ten spaces.
    pub fn fresh() -> Line
        ensures { result ≡ fresh_line }
    {
        Line {
            session: [b' '; SESSION_SIZE],
            known: false,
            logged: false,
            next: numbering::FIRST_NUMBER,
        }
    }

    // Restored with a known session.
    pub fn waiting(session: [u8; SESSION_SIZE], next: u64) -> Line
        ensures { result ≡ waiting session next }
    {
        Line {
            session,
            known: true,
            logged: false,
            next,
        }
    }

    // After the login with that body.
    pub fn logged_in(self, body: &[u8]) -> Line
        requires { session_size ≤ length body.now }
        ensures { result ≡ logged_in self (login_session body.now) }
    {
        Line {
            session: field::bytes::<SESSION_SIZE>(body, 0),
            known: true,
            logged: true,
            next: self.next,
        }
    }
}
