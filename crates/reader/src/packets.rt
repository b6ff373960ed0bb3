// A whole packet, on a handle where it lies: a message is known first and delivered in place, and any other packet is judged by value.
ghost use Rattle.std.specs.Prelude.{◌≡◌, false, ◌≤◌, ◌<◌, length};
ghost use Rattle.field.specs.Bytes.{overlay};
ghost use Rattle.packet.specs.Line.{session_size, login_session, logged_in, packet_of, is_message};
ghost use Rattle.packet.specs.Session.{soup_bin_tcp};
ghost use Rattle.table.specs.Memory.{Memories, memories};
ghost use Rattle.handle.specs.Handle.{handle_size, head_of, head_bytes, with_line};
ghost use Rattle.reader.specs.Deliver.{deliver};
ghost use Rattle.reader.specs.Handles.{left};
ghost use Rattle.reader.specs.Shapes.{Ready, session_at, closed_as};

use crate::{Refusal, deliver, told};
use handle::{HANDLE_SIZE, Head};
use packet::Packet;

// The line after a login with that body.
fn log_in(handle: &mut [u8], body: &[u8])
    requires { (length handle.old ≡ handle_size) × (session_size ≤ length body.now) }
    ensures { handle.new ≡ overlay handle.old 0 (head_bytes (with_line (logged_in (head_of handle.old).line (login_session body.now)) (head_of handle.old))) }
{
    let head = handle::read_head(handle);
    let line = head.line.logged_in(body);
    handle::put_head(Head { line, ..head }, handle);
}

// A packet that is no message for the next number.
fn other(handle: &mut [u8], letter: u8, body: &[u8]) -> u32
    requires { ((t : Memories) × Ready handle.old t) × (is_message (packet_of (head_of handle.old).line letter body.now) ≡ false) }
    ensures closes { (t : Memories) → left result handle.new t ≡ closed_as (soup_bin_tcp deliver (session_at handle.old t) letter body.now) handle.old }
    ensures low_half { result < 65_536 }
{
    let head = handle::read_head(handle);
    match packet::judge(head.line, letter, body) {
        Packet::Login(_) => {
            log_in(handle, body);
            told::LOGIN
        }
        Packet::Rejected(_) => {
            handle::put_ended(handle);
            told::REJECTED
        }
        Packet::Message => told::MESSAGE,
        Packet::Heartbeat => told::HEARTBEAT,
        Packet::End => {
            handle::put_ended(handle);
            told::END
        }
        Packet::Skipped => told::SKIPPED,
        Packet::Refused(f) => told::refuse(u8::from(Refusal::from(f)), handle),
    }
}

// What a whole packet does. A packet that is no message is handed the handle as so many bytes, so that its length is not handed down to here.
pub fn act(
    rows: usize,
    handle: &mut [u8],
    table: &mut [u8],
    index: &mut [u8],
    letter: u8,
    body: &[u8],
) -> u32
    requires { Ready handle.old (memories table.old index.old) × (rows ≡ (head_of handle.old).board.rows) }
    ensures closes { left result handle.new (memories table.new index.new) ≡ closed_as (soup_bin_tcp deliver (session_at handle.old (memories table.old index.old)) letter body.now) handle.old }
    ensures low_half { result < 65_536 }
{
    let next = handle::next(handle);
    if packet::is_message(handle::logged(handle), next, letter) {
        return deliver::message(next, rows, handle, table, index, body);
    }
    other(&mut handle[..HANDLE_SIZE], letter, body)
}
