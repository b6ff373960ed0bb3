// The session: read in pieces as they come, and run through to its end.
ghost use Rattle.std.specs.Prelude.{◌≡◌, ◌≤◌, length};
ghost use Rattle.table.specs.Memory.{memories};
ghost use Rattle.toplist.specs.Feeding.{takes_more, RunsFrom, Feeds, Stays};

use crate::progress::Progress;
use files::input::Input;
use reader::{MOST_PACKETS, Reader};
use std::io;
use std::io::Read;

// No piece is longer.
const MOST_PIECE: usize = 65_536;

// A reader, and how far it is in the piece.
#[derive(Clone, Copy)]
pub struct Reached {
    pub reader: Reader,
    pub at: usize,
}

// What one read brought: the reader after it, and how many bytes came, or the error that broke the input off.
#[derive(Clone, Copy)]
struct Brought {
    reader: Reader,
    came: io::Result<usize>,
}

// The reader, whether any byte came, and the error that broke the input off, where there is one.
#[derive(Clone, Copy)]
pub struct Heard {
    pub reader: Reader,
    pub any: bool,
    pub error: Option<io::Error>,
}

// Has the reader neither refused nor ended?
fn takes_more(reader: Reader) -> bool
    ensures { result ≡ takes_more reader }
{
    if reader.refusal != 0 {
        return false;
    }
    !reader.ended
}

// One run into the piece, with the highest ceiling.
fn run_from(reached: Reached, piece: &[u8], table: &mut [u8], index: &mut [u8]) -> Reached
    requires { reached.at ≤ length piece.now }
    ensures { RunsFrom reached (memories table.old index.old) piece.now result (memories table.new index.new) }
{
    let given = reached.reader;
    let at = reached.at;
    let ran = given.run(&piece[at..], table, index, MOST_PACKETS);
    let reader = ran.reader;
    Reached {
        reader,
        at: at + ran.taken,
    }
}

// All of a piece, or as much as is taken. Each run takes a byte at least, so the turns do not run out.
fn feed(reader: Reader, piece: &[u8], table: &mut [u8], index: &mut [u8]) -> Reader
    ensures { Feeds reader (memories table.old index.old) piece.now result (memories table.new index.new) }
{
    let mut reached = Reached { reader, at: 0 };
    for _ in 0..piece.len() {
        let before = reached.reader;
        if !takes_more(before) {
            return before;
        }
        if reached.at == piece.len() {
            return before;
        }
        reached = run_from(reached, piece, table, index);
    }
    reached.reader
}

// What comes next of the input.
fn read_some(
    input: &mut Input,
    reader: Reader,
    space: &mut [u8],
    table: &mut [u8],
    index: &mut [u8],
) -> Brought
    ensures { Stays reader (memories table.old index.old) result.reader (memories table.new index.new) }
{
    match input.read(space) {
        Ok(n) => Brought {
            reader: feed(reader, &space[..n], table, index),
            came: Ok(n),
        },
        Err(e) => Brought {
            reader,
            came: Err(e),
        },
    }
}

// Is there no more to come? A read that a signal broke off is done again.
fn is_over(came: io::Result<usize>) -> bool {
    match came {
        Ok(n) => n == 0,
        Err(e) => e.kind() != io::ErrorKind::Interrupted,
    }
}

// Reads and runs to the end of the input. A proved loop has to end, so it has a number of turns that no input uses up.
pub fn read_all(
    rt: &HostRuntime,
    input: &mut Input,
    reader: Reader,
    table: &mut [u8],
    index: &mut [u8],
) -> Heard
    ensures { Stays reader (memories table.old index.old) result.reader (memories table.new index.new) }
{
    let mut space = [0u8; MOST_PIECE];
    let mut progress = Progress::start(rt, reader.line.next);
    let mut heard = Heard {
        reader,
        any: false,
        error: None,
    };
    for _ in 0..u64::MAX {
        if !takes_more(heard.reader) {
            break;
        }
        let brought = read_some(input, heard.reader, &mut space, table, index);
        let n = brought.came.unwrap_or(0);
        progress.told(rt, n, brought.reader.line.next);
        heard = Heard {
            reader: brought.reader,
            any: heard.any | (n != 0),
            error: brought.came.err(),
        };
        if is_over(brought.came) {
            break;
        }
    }
    progress.clear(rt);
    heard
}
