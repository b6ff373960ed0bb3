// What is saved beside the rows: its rules, and the body of block 0 that holds it. What writes takes the whole output and a place in it, here and in the
// blocks, and no slice of it: a clause says of every byte of the output what it is, which a slice would have to be laid back into.
ghost use Rattle.std.specs.Prelude.{◌≡◌, ◌+◌, ◌≤◌, length};
ghost use Rattle.field.specs.Bytes.{overlay};
ghost use Rattle.block.specs.Block.{block_size, body_size};
ghost use Rattle.table.specs.Memory.{most_rows};
ghost use Rattle.table.specs.Rules.{board_keeps};
ghost use Rattle.image.specs.Header.{flag, is_fresh, header_keeps, session_bytes, board_bytes, first_body, header_of};
ghost use Rattle.image.specs.Restore.{version_of, facts_keep};

use crate::Header;
use field::{limits, text};
use message::codes;
use table::Board;

// In the body of block 0 zeros follow so many bytes.
const FACTS_SIZE: usize = 22;

fn board_keeps(b: Board) -> bool
    ensures { result ≡ board_keeps b }
{
    ((0 == b.event) | codes::is_event(b.event)) & ((b.live == 0) | limits::number_in_range(b.live))
}

fn is_fresh(h: Header) -> bool
    ensures { result ≡ is_fresh h }
{
    let b = h.board;
    text::only(&h.session, 0, 10, b' ')
        & ((h.next == 1) & ((b.event == 0) & ((b.rows == 0) & (b.live == 0))))
}

pub fn keep(h: Header) -> bool
    ensures { result ≡ header_keeps h }
{
    let b = h.board;
    board_keeps(b) & (h.known | is_fresh(h))
}

fn put_session(out: &mut [u8], at: usize, h: Header)
    requires { at + 11 ≤ length out.old }
    ensures { out.new ≡ overlay out.old at (session_bytes h) }
{
    field::put::<10>(out, at, &h.session);
    field::write::<u8>(out, at + 10, u8::from(h.known));
}

fn put_board(out: &mut [u8], at: usize, b: Board)
    requires { (at + 11 ≤ length out.old) × (b.rows ≤ most_rows) }
    ensures { out.new ≡ overlay out.old at (board_bytes b) }
{
    field::write::<u8>(out, at, b.event);
    field::write::<u16>(out, at + 1, b.rows as u16);
    field::write::<u64>(out, at + 3, b.live);
}

// The body of block 0.
pub fn put(out: &mut [u8], at: usize, h: Header)
    requires { (at + body_size ≤ length out.old) × (h.board.rows ≤ most_rows) }
    ensures { out.new ≡ overlay out.old at (first_body h) }
{
    let b = h.board;
    put_session(out, at, h);
    put_board(out, at + 11, b);
    field::fill(out, at + FACTS_SIZE, block::BODY_SIZE - FACTS_SIZE, 0);
}

// What block 0 says. An image is a slice of many blocks: an array would ask this and the next two for exactly one.
pub fn read(image: &[u8]) -> Header
    requires { block_size ≤ length image.now }
    ensures { result ≡ header_of image.now }
{
    Header {
        session: field::bytes::<10>(image, 14),
        known: field::read::<u8>(image, 24) == 1,
        next: block::read_head(image, 0).next,
        board: Board {
            rows: field::read::<u16>(image, 26) as usize,
            event: field::read::<u8>(image, 25),
            live: field::read::<u64>(image, 28),
        },
    }
}

pub fn version(image: &[u8]) -> u16
    requires { block_size ≤ length image.now }
    ensures { result ≡ version_of image.now }
{
    block::read_head(image, 0).version
}

// Is the byte for "known" 0 or 1, and are there zeros behind the live number?
pub fn only_facts(image: &[u8]) -> bool
    requires { block_size ≤ length image.now }
    ensures { result ≡ facts_keep image.now }
{
    (field::read::<u8>(image, 24) <= 1)
        & text::only(
            image,
            block::HEAD_SIZE + FACTS_SIZE,
            block::BODY_SIZE - FACTS_SIZE,
            0,
        )
}
