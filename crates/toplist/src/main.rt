// Lists the table of a session; saves it, or restores it first, where the arguments ask for it.
#![tactic(auto)]

use arguments::Wanted;
use block::BLOCK_SIZE;
use files::input::Input;
use files::status::{FINE, Fault};
use files::{command_line, complaints, status};
use image::MOST_BLOCKS;
use listing::{Ending, Shown};
use reader::Reader;
use session::Heard;
use std::io;
use std::io::Print;
use table::index::INDEX_SIZE;
use table::{MOST_ROWS, TABLE_SIZE};

mod arguments;
mod progress;
mod session;

// No listing has more lines, and no image more bytes.
const MOST_LINES: usize = MOST_ROWS + 2;

const MOST_IMAGE: usize = MOST_BLOCKS * BLOCK_SIZE;

// Room for a block more, so that a longer file is seen to be too long.
const LONGER_IMAGE: usize = MOST_IMAGE + BLOCK_SIZE;

// No name of a file is longer.
const MOST_PATH: usize = 4096;

const PROGRAM: [u8; 7] = *b"toplist";

fn print_help(rt: &HostRuntime) {
    let _ = rt.write_all(
        b"usage: toplist [--from FILE] [--save FILE] [--status] [SESSION]\n\nLists the table of a session, which is read from the file SESSION, or from standard input.\n\n  --from FILE  restore the table from FILE first; the session then begins with the login that it waits for\n  --save FILE  save the table to FILE at the end, whole or not at all\n  --status     write a digit to descriptor 3 at the end: 0 for ok and end, 1 where a file could not be read, saved\n               or written, 2 for wrong arguments, 3 where something was refused\n  --help       print this\n",
    );
}

fn print_usage(rt: &HostRuntime) {
    let _ = Print::write_all(
        &rt.stderr(),
        b"usage: toplist [--from FILE] [--save FILE] [--status] [SESSION] (toplist --help says more)\n",
    );
}

// Standard output gets the refusal, and standard error what was refused.
fn print_refused(rt: &HostRuntime, what: &[u8], number: u8) {
    let _ = println!(rt; "refused {number}");
    complaints::refusal(rt, &PROGRAM, what, b": no saved table: refused ", number);
}

fn print_text(rt: &HostRuntime, text: &[u8]) -> Result<(), Fault> {
    rt.write_all(text).map_err(|e| {
        complaints::output(rt, &PROGRAM, e);
        Fault::Failed
    })
}

// A line of the listing; was there one?
fn print_line(
    rt: &HostRuntime,
    k: usize,
    reader: Reader,
    table: &[u8],
    ending: Ending,
) -> Result<bool, Fault> {
    let line = listing::line(k, reader.line.next, reader.board.rows, table, ending);
    match line.shown {
        Shown::Line(n) => {
            print_text(rt, &line.text[..n])?;
            Ok(true)
        }
        Shown::Past => Ok(false),
        Shown::Unfit => {
            complaints::refusal(
                rt,
                &PROGRAM,
                b"the table",
                b": not listed: refused ",
                u8::from(table::Refusal::Unfit),
            );
            Err(Fault::Failed)
        }
    }
}

// Line by line, as far as there are any.
fn print_listing(
    rt: &HostRuntime,
    reader: Reader,
    table: &[u8],
    ending: Ending,
) -> Result<(), Fault> {
    for k in 0..MOST_LINES {
        if !print_line(rt, k, reader, table, ending)? {
            break;
        }
    }
    Ok(())
}

fn store(rt: &HostRuntime, path: &[u8], image: &[u8]) -> Result<(), Fault> {
    if !files::store(rt, &PROGRAM, path, image) {
        return Err(Fault::Failed);
    }
    Ok(())
}

fn save_to(rt: &HostRuntime, path: &[u8], reader: Reader, table: &[u8]) -> Result<(), Fault> {
    let mut image = [0u8; MOST_IMAGE];
    match reader.save(table, &mut image) {
        Ok(n) if n <= MOST_IMAGE => store(rt, path, &image[..n]),
        Ok(_) => Err(Fault::Failed),
        Err(r) => {
            complaints::refusal(rt, &PROGRAM, path, b": not saved: refused ", u8::from(r));
            Err(Fault::Failed)
        }
    }
}

// To the file that an argument names, where one does.
fn save(rt: &HostRuntime, file: Option<usize>, reader: Reader, table: &[u8]) -> Result<(), Fault> {
    let Some(place) = file else {
        return Ok(());
    };
    let mut space = [0u8; MOST_PATH];
    let n = command_line::argument(rt, place, &mut space);
    let path = &space[..n];
    save_to(rt, path, reader, table)
}

// The reader of a saved table, in the file that an argument names.
fn resume(
    rt: &HostRuntime,
    place: usize,
    table: &mut [u8],
    index: &mut [u8],
) -> Result<Reader, Fault> {
    let mut space = [0u8; MOST_PATH];
    let n = command_line::argument(rt, place, &mut space);
    let path = &space[..n];
    let mut saved = [0u8; LONGER_IMAGE];
    let size = files::load(rt, &PROGRAM, path, &mut saved).ok_or(Fault::Failed)?;
    let back = Reader::restore(&saved[..size], table, index);
    match back.verdict {
        Ok(()) => Ok(back.reader),
        Err(r) => {
            print_refused(rt, path, u8::from(r));
            Err(Fault::Refused)
        }
    }
}

// The reader to begin with: a fresh one, or that of a saved table.
fn begin(
    rt: &HostRuntime,
    from: Option<usize>,
    table: &mut [u8],
    index: &mut [u8],
) -> Result<Reader, Fault> {
    let fresh = Reader::start(table, index);
    match from {
        Some(place) => resume(rt, place, table, index),
        None => Ok(fresh.reader),
    }
}

// The session, where it can be opened: that in a file, or standard input.
fn open_session(rt: &HostRuntime, session: Option<usize>) -> Option<Input> {
    let Some(place) = session else {
        return Some(Input::Standard(rt.stdin()));
    };
    let mut space = [0u8; MOST_PATH];
    let n = command_line::argument(rt, place, &mut space);
    let path = &space[..n];
    files::open(rt, &PROGRAM, path)
}

// Why the session could not be read to its end.
fn complain(rt: &HostRuntime, session: Option<usize>, error: io::Error) {
    let Some(place) = session else {
        complaints::input(rt, &PROGRAM, b"standard input", error);
        return;
    };
    let mut space = [0u8; MOST_PATH];
    let n = command_line::argument(rt, place, &mut space);
    let path = &space[..n];
    complaints::input(rt, &PROGRAM, path, error);
}

// Saved first, and then listed.
fn finish(
    rt: &HostRuntime,
    file: Option<usize>,
    reader: Reader,
    table: &[u8],
) -> Result<(), Fault> {
    let ending = listing::ending_for(reader.refusal, reader.ended);
    let saved = save(rt, file, reader, table);
    print_listing(rt, reader, table, ending)?;
    saved?;
    if reader.refusal != 0 {
        return Err(Fault::Refused);
    }
    Ok(())
}

// What was heard is saved and listed, or it is said why the session could not be read to its end. What came of one that could not is saved;
// where nothing came, a file that is there stays.
fn conclude(rt: &HostRuntime, wanted: Wanted, heard: Heard, table: &[u8]) -> Result<(), Fault> {
    let Some(e) = heard.error else {
        return finish(rt, wanted.save, heard.reader, table);
    };
    if heard.any {
        let _ = save(rt, wanted.save, heard.reader, table);
    }
    complain(rt, wanted.session, e);
    Err(Fault::Failed)
}

// The reader takes table and index apart, and `session::read_all` promises of any two memories, so they are no struct.
fn run(rt: &HostRuntime, wanted: Wanted, table: &mut [u8], index: &mut [u8]) -> Result<(), Fault> {
    let reader = begin(rt, wanted.from, table, index)?;
    let mut input = open_session(rt, wanted.session).ok_or(Fault::Failed)?;
    let heard = session::read_all(rt, &mut input, reader, table, index);
    files::close(input);
    conclude(rt, wanted, heard, table)
}

// What the arguments ask for.
fn answer(rt: &HostRuntime, wanted: Wanted) -> Result<(), Fault> {
    if wanted.wrong {
        print_usage(rt);
        return Err(Fault::Wrong);
    }
    if wanted.help {
        print_help(rt);
        return Ok(());
    }
    let mut table = [0u8; TABLE_SIZE];
    let mut index = [0u8; INDEX_SIZE];
    run(rt, wanted, &mut table, &mut index)
}

fn main(rt: HostRuntime) {
    let wanted = arguments::read(&rt);
    let status = answer(&rt, wanted).map_or_else(u8::from, |()| FINE);
    if wanted.status {
        status::write(&rt, status);
    }
}
