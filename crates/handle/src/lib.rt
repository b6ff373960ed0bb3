// The handle in bytes: its head, and behind that the places of its held bytes. It is handed about as a slice whose length is a clause: with
// an array this crate proves, but the reader's `within_limits`, `place` and `other` stayed open.
#![tactic(auto)]

ghost use Rattle.std.specs.Prelude.{◌≡◌, ◌++◌, ◌≤◌, length};
ghost use Rattle.field.specs.Bytes.{overlay, bytes_be};
ghost use Rattle.handle.specs.Handle.{handle_size, is_handle, head_of, head_bytes, number_bytes, mark_bytes, next_field, live_field, rows_field, used_field, ended_field, refusal_field, event_field, with_field};

use packet::Line;
use table::Board;

pub const HEAD_SIZE: usize = 47;

// With the places of held bytes behind the head: 305.
pub const HANDLE_SIZE: usize = HEAD_SIZE + packet::HELD_SIZE;

// Where the fields of a head stand.
const NEXT: usize = 0;

const LIVE: usize = 8;

const ROWS: usize = 16;

const USED: usize = 24;

const SESSION: usize = 32;

const KNOWN: usize = 42;

const LOGGED: usize = 43;

const ENDED: usize = 44;

const REFUSAL: usize = 45;

const EVENT: usize = 46;

// The handle but for the places of its held bytes.
#[derive(Clone, Copy)]
pub struct Head {
    pub line: Line,
    pub board: Board,
    pub ended: bool,
    // The number of the refusal that stands, 0 for none: a byte of the handle, as `head_bytes` lays it.
    pub refusal: u8,
    // How many bytes are held.
    pub used: usize,
}

// Are the bytes a handle: 305 of them, and each flag 0 or 1?
pub fn is_handle(bytes: &[u8]) -> bool
    ensures { result ≡ is_handle bytes.now }
{
    if bytes.len() != HANDLE_SIZE {
        return false;
    }
    (field::read::<u8>(bytes, KNOWN) <= 1)
        & ((field::read::<u8>(bytes, LOGGED) <= 1) & (field::read::<u8>(bytes, ENDED) <= 1))
}

// The head of a handle.
pub fn read_head(bytes: &[u8]) -> Head
    requires { length bytes.now ≡ handle_size }
    ensures { result ≡ head_of bytes.now }
{
    let line = Line {
        session: field::bytes::<{ packet::SESSION_SIZE }>(bytes, SESSION),
        known: field::read::<u8>(bytes, KNOWN) == 1,
        logged: field::read::<u8>(bytes, LOGGED) == 1,
        next: field::read::<u64>(bytes, NEXT),
    };
    let board = Board {
        rows: field::read::<u64>(bytes, ROWS) as usize,
        event: field::read::<u8>(bytes, EVENT),
        live: field::read::<u64>(bytes, LIVE),
    };
    Head {
        line,
        board,
        ended: field::read::<u8>(bytes, ENDED) == 1,
        refusal: field::read::<u8>(bytes, REFUSAL),
        used: field::read::<u64>(bytes, USED) as usize,
    }
}

// The four numbers of eight bytes at the front.
fn put_numbers(h: Head, out: &mut [u8])
    requires { length out.old ≡ handle_size }
    ensures { out.new ≡ overlay out.old 0 (number_bytes h) }
{
    field::write::<u64>(out, NEXT, h.line.next);
    field::write::<u64>(out, LIVE, h.board.live);
    field::write::<u64>(out, ROWS, h.board.rows as u64);
    field::write::<u64>(out, USED, h.used as u64);
}

// The five marks of a byte each behind the session.
fn put_marks(h: Head, out: &mut [u8])
    requires { length out.old ≡ handle_size }
    ensures { out.new ≡ overlay out.old 42 (mark_bytes h) }
{
    field::write::<u8>(out, KNOWN, u8::from(h.line.known));
    field::write::<u8>(out, LOGGED, u8::from(h.line.logged));
    field::write::<u8>(out, ENDED, u8::from(h.ended));
    field::write::<u8>(out, REFUSAL, h.refusal);
    field::write::<u8>(out, EVENT, h.board.event);
}

// Lays a head over the front of a handle; the places of held bytes stay.
pub fn put_head(h: Head, out: &mut [u8])
    requires { length out.old ≡ handle_size }
    ensures { out.new ≡ overlay out.old 0 (head_bytes h) }
{
    put_numbers(h, out);
    field::put::<{ packet::SESSION_SIZE }>(out, SESSION, &h.line.session);
    put_marks(h, out);
}

// ---- single fields, where the handle lies: a function for each, since the clause of each names its own field of `head_of`, or `with_field` of it

pub fn next(bytes: &[u8]) -> u64
    requires { length bytes.now ≡ handle_size }
    ensures { result ≡ (head_of bytes.now).line.next }
{
    field::read::<u64>(bytes, NEXT)
}

pub fn rows(bytes: &[u8]) -> usize
    requires { length bytes.now ≡ handle_size }
    ensures { result ≡ (head_of bytes.now).board.rows }
{
    field::read::<u64>(bytes, ROWS) as usize
}

pub fn used(bytes: &[u8]) -> usize
    requires { length bytes.now ≡ handle_size }
    ensures { result ≡ (head_of bytes.now).used }
{
    field::read::<u64>(bytes, USED) as usize
}

pub fn logged(bytes: &[u8]) -> bool
    requires { length bytes.now ≡ handle_size }
    ensures { result ≡ (head_of bytes.now).line.logged }
{
    field::read::<u8>(bytes, LOGGED) == 1
}

pub fn ended(bytes: &[u8]) -> bool
    requires { length bytes.now ≡ handle_size }
    ensures { result ≡ (head_of bytes.now).ended }
{
    field::read::<u8>(bytes, ENDED) == 1
}

pub fn refusal(bytes: &[u8]) -> u8
    requires { length bytes.now ≡ handle_size }
    ensures { result ≡ (head_of bytes.now).refusal }
{
    field::read::<u8>(bytes, REFUSAL)
}

// The next number and the session, which a login tells, to the front of `out`: one load and one store for the number.
pub fn copy_login(bytes: &[u8], out: &mut [u8])
    requires { (length bytes.now ≡ handle_size) × (18 ≤ length out.old) }
    ensures { out.new ≡ overlay out.old 0 (bytes_be 8 (head_of bytes.now).line.next ++ (head_of bytes.now).line.session) }
{
    field::carry::<8>(bytes, NEXT, out, 0);
    field::copy(bytes, SESSION, packet::SESSION_SIZE, out, 8);
}

pub fn put_next(v: u64, out: &mut [u8])
    requires { length out.old ≡ handle_size }
    ensures { out.new ≡ with_field next_field v out.old }
{
    field::write::<u64>(out, NEXT, v);
}

pub fn put_live(v: u64, out: &mut [u8])
    requires { length out.old ≡ handle_size }
    ensures { out.new ≡ with_field live_field v out.old }
{
    field::write::<u64>(out, LIVE, v);
}

pub fn put_rows(v: usize, out: &mut [u8])
    requires { length out.old ≡ handle_size }
    ensures { out.new ≡ with_field rows_field v out.old }
{
    field::write::<u64>(out, ROWS, v as u64);
}

pub fn put_used(v: usize, out: &mut [u8])
    requires { length out.old ≡ handle_size }
    ensures { out.new ≡ with_field used_field v out.old }
{
    field::write::<u64>(out, USED, v as u64);
}

// The handle has ended.
pub fn put_ended(out: &mut [u8])
    requires { length out.old ≡ handle_size }
    ensures { out.new ≡ with_field ended_field 1 out.old }
{
    field::write::<u8>(out, ENDED, 1);
}

pub fn put_refusal(v: u8, out: &mut [u8])
    requires { length out.old ≡ handle_size }
    ensures { out.new ≡ with_field refusal_field v out.old }
{
    field::write::<u8>(out, REFUSAL, v);
}

pub fn put_event(v: u8, out: &mut [u8])
    requires { length out.old ≡ handle_size }
    ensures { out.new ≡ with_field event_field v out.old }
{
    field::write::<u8>(out, EVENT, v);
}
