// The saved table: blocks of 512 bytes that come back byte for byte.
#![tactic(auto)]

ghost use Rattle.std.specs.Prelude.{◌≡◌};
ghost use Rattle.image.specs.Header.{fresh_header, within_limits};
ghost use Rattle.image.specs.Save.{refusal_number, saving, save_of};
ghost use Rattle.std.specs.Prelude.{Err};
ghost use Rattle.image.specs.Restore.{restoring, restored, restore_of};

use crate::pages::{Keeping, Source};
use crate::rows::Pages;
use table::Board;

mod each_row;
mod facts;
mod ids;
mod judge;
pub mod moves;
mod pages;
mod rows;

// Each block after the first holds so many rows.
pub const PAGE_ROWS: usize = 4;

pub const MOST_BLOCKS: usize = 1 + table::MOST_ROWS / PAGE_ROWS;

// What is saved beside the rows. The ten bytes and the flag, and no Option of a session: the bytes are written where it is unknown too
// (`session_bytes`).
#[derive(Clone, Copy)]
pub struct Header {
    // Ten spaces while no session is known.
    pub session: [u8; 10],
    pub known: bool,
    pub next: u64,
    pub board: Board,
}

#[derive(Clone, Copy)]
pub enum Refusal {
    // Table memory of the wrong length, or a header outside its limits.
    Unfit,
    // The image is empty, has a piece of a block or too many blocks.
    BadLength,
    // A block's check is wrong.
    BadCheck,
    // A block's number, count, version or next number is wrong.
    BadHead,
    // The contents break the row or block rules.
    BadContents,
    // The output is too short for the image.
    ShortOutput,
}

// The versions that a call takes: any, those before version 3, version 3. A value that is handed down, as `verdict_in` names it.
#[derive(Clone, Copy)]
pub enum Wanted {
    Any,
    Older,
    Newest,
}

// An image is moved to version 3, or back to the one that its rows had before. A value that is handed down, and no closure: the clauses name the
// definition of what it does to a row (`along way`), which a closure's own postcondition would only hide.
#[derive(Clone, Copy)]
pub enum Way {
    Forward,
    Back,
}

// Verdict and header, and no Result of a header: a refusal too gives a header, that of a fresh reader (`restore_of`, theorem `Verdicts.refused-leaves`).
#[derive(Clone, Copy)]
pub struct Restored {
    pub verdict: Result<(), Refusal>,
    pub header: Header,
}

// By a match: each refusal has its own number.
impl From<Refusal> for u8 {
    ghost from_gives = { λ r n. n ≡ refusal_number r };

    fn from(r: Refusal) -> u8 {
        match r {
            Refusal::Unfit => 20,
            Refusal::BadLength => 21,
            Refusal::BadCheck => 22,
            Refusal::BadHead => 23,
            Refusal::BadContents => 24,
            Refusal::ShortOutput => 25,
        }
    }
}

pub fn fresh_header() -> Header
    ensures { result ≡ fresh_header }
{
    let board = table::fresh_board();
    Header {
        session: [32u8; 10],
        known: false,
        next: 1,
        board,
    }
}

fn within_limits(h: Header, table: &[u8]) -> bool
    ensures { result ≡ within_limits h table.now }
{
    table::rows_fit(h.board.rows, table) & field::limits::number_in_range(h.next)
}

// The image of the rows in use and of what stands beside them, to the front of `out`.
pub fn save(h: Header, table: &[u8], out: &mut [u8]) -> Result<usize, Refusal>
    ensures { saving result out.new ≡ save_of h table.now out.old }
{
    if !within_limits(h, table) {
        return Err(Refusal::Unfit);
    }
    let rows = h.board.rows;
    let slots = Pages {
        bytes: table,
        base: 0,
        stride: block::BODY_SIZE,
        rows,
    };
    let kept = facts::keep(h) & slots.keep(row::rules::NEWEST);
    if !kept {
        return Err(Refusal::BadContents);
    }
    let count = pages::blocks_for(rows);
    let size = count * block::BLOCK_SIZE;
    if out.len() < size {
        return Err(Refusal::ShortOutput);
    }
    let keeping = Keeping { table, header: h };
    keeping.put_blocks(out, count);
    Ok(size)
}

fn refuse(r: Refusal) -> Restored
    ensures { result ≡ restored (Err r) fresh_header }
{
    let header = fresh_header();
    Restored {
        verdict: Err(r),
        header,
    }
}

// The rows of an image to table memory, as version 3 has them, with zeros past them. Nothing is written before every check has passed.
pub fn restore(image: &[u8], table: &mut [u8]) -> Restored
    ensures { restoring result table.new ≡ restore_of image.now table.old }
{
    if !table::is_table(table) {
        return refuse(Refusal::Unfit);
    }
    match judge::judge(image, Wanted::Any) {
        Ok(()) => {
            pages::take(image, table, image.len() / block::BLOCK_SIZE - 1);
            let header = facts::read(image);
            each_row::renew(table, facts::version(image), header.board.rows);
            Restored {
                verdict: Ok(()),
                header,
            }
        }
        Err(r) => refuse(r),
    }
}
