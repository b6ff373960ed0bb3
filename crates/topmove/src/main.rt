// Moves a saved table to version 3, or back to the version that its rows had before.
#![tactic(auto)]

use arguments::{Choice, Move};
use block::BLOCK_SIZE;
use files::status::{FINE, Fault};
use files::{command_line, complaints, status};
use image::{MOST_BLOCKS, Way};
use line::LINE_SIZE;
use moving::Moved;
use std::io::Print;

mod arguments;
mod line;
mod moving;

// No image has more bytes.
const MOST_IMAGE: usize = MOST_BLOCKS * BLOCK_SIZE;

// Room for a block more, so that a longer file is seen to be too long.
const LONGER_IMAGE: usize = MOST_IMAGE + BLOCK_SIZE;

// No name of a file is longer.
const MOST_PATH: usize = 4096;

const PROGRAM: [u8; 7] = *b"topmove";

// On standard output.
fn print(rt: &HostRuntime, text: &[u8]) -> Result<(), Fault> {
    rt.write_all(text).map_err(|e| {
        complaints::output(rt, &PROGRAM, e);
        Fault::Failed
    })
}

fn print_help(rt: &HostRuntime) -> Result<(), Fault> {
    print(
        rt,
        b"usage: topmove forward|back FILE NEW\n\nMoves the saved table in FILE to another version, and writes it to NEW whole or not at all; NEW may be FILE.\n\n  forward   from version 1 or 2 to version 3; the time of each side that was seen is then unknown\n  back      from version 3 to version 1, or to version 2 for more than 256 rows; the times of the sides are lost\n  --status  as the first argument: write a digit to descriptor 3 at the end, 0 where the table was moved, 1 where\n            a file could not be read or written, 2 for wrong arguments, 3 where the table was refused\n  --help    print this\n",
    )
}

fn print_usage(rt: &HostRuntime) {
    let _ = Print::write_all(
        &rt.stderr(),
        b"usage: topmove forward|back FILE NEW (topmove --help says more)\n",
    );
}

// The way is handed on to the line, whose promise names it.
fn print_line(rt: &HostRuntime, way: Way, moved: Moved) -> Result<(), Fault> {
    let mut text = [0u8; LINE_SIZE];
    let n = line::put(&mut text, way, moved);
    print(rt, &text[..n])
}

// The bytes to the file that an argument names.
fn store(rt: &HostRuntime, new: usize, bytes: &[u8]) -> Result<(), Fault> {
    let mut space = [0u8; MOST_PATH];
    let n = command_line::argument(rt, new, &mut space);
    let path = &space[..n];
    if !files::store(rt, &PROGRAM, path, bytes) {
        return Err(Fault::Failed);
    }
    Ok(())
}

impl Move {
    // Moves the image that was read from FILE, writes it to NEW, and says it in a line.
    fn convert(self, rt: &HostRuntime, path: &[u8], image: &[u8]) -> Result<(), Fault> {
        let mut out = [0u8; MOST_IMAGE];
        match moving::move_image(self.way, image, &mut out) {
            Ok(moved) => {
                let size = moved.size;
                store(rt, self.new, &out[..size])?;
                print_line(rt, self.way, moved)
            }
            Err(number) => {
                complaints::refusal(rt, &PROGRAM, path, b": not moved: refused ", number);
                Err(Fault::Refused)
            }
        }
    }

    // FILE to NEW.
    fn run(self, rt: &HostRuntime) -> Result<(), Fault> {
        let mut space = [0u8; MOST_PATH];
        let n = command_line::argument(rt, self.file, &mut space);
        let path = &space[..n];
        let mut image = [0u8; LONGER_IMAGE];
        let size = files::load(rt, &PROGRAM, path, &mut image).ok_or(Fault::Failed)?;
        self.convert(rt, path, &image[..size])
    }
}

// What the arguments ask for.
fn answer(rt: &HostRuntime, choice: Choice) -> Result<(), Fault> {
    match choice {
        Choice::Move(it) => it.run(rt),
        Choice::Help => print_help(rt),
        Choice::Wrong => {
            print_usage(rt);
            Err(Fault::Wrong)
        }
    }
}

fn main(rt: HostRuntime) {
    let wanted = arguments::read(&rt);
    let status = answer(&rt, wanted.choice).map_or_else(u8::from, |()| FINE);
    if wanted.status {
        status::write(&rt, status);
    }
}
