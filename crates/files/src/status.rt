// What a program would end with, as a digit that it writes to a descriptor, where `./run` reads it.
ghost use Rattle.std.specs.Prelude.{◌≡◌};
ghost use Rattle.files.specs.Status.{digit_of};

use std::fs::{File, OpenOptions};
use std::io;
use std::io::{Read, Seek, SeekFrom, Write};

// All went well.
pub const FINE: u8 = 0;

// Why a program does not end well.
#[derive(Clone, Copy)]
pub enum Fault {
    // A file could not be read or written.
    Failed,
    // The arguments are wrong.
    Wrong,
    // Something was refused.
    Refused,
}

impl From<Fault> for u8 {
    ghost from_gives = { λ fault n. n ≡ digit_of fault };

    fn from(fault: Fault) -> u8 {
        match fault {
            Fault::Failed => 1,
            Fault::Wrong => 2,
            Fault::Refused => 3,
        }
    }
}

// The library opens files by their names alone, and these are the names that the system has for descriptor 3 and for what it knows of it.
const STATUS_FILE: &str = "/proc/self/fd/3";

const STATUS_FACTS: &str = "/proc/self/fdinfo/3";

// The two lines of it that are looked at: the place in the file, and how it was opened, in octal.
const PLACE: &str = "pos:";

const FLAGS: &str = "flags:";

// Of those flags: whether it may be written, and whether only behind what is there.
const ACCESS: u64 = 3;

const READ_ONLY: u64 = 0;

const APPEND: u64 = 0o2000;

fn fact<'a>(facts: &'a str, name: &str) -> &'a str {
    facts
        .lines()
        .find_map(|line| line.strip_prefix(name))
        .unwrap_or("")
        .trim()
}

// Opened to be read too, where it may be, since a named pipe that nobody reads any more would else make the program wait.
fn open(rt: &HostRuntime, append: bool) -> io::Result<File> {
    OpenOptions::new()
        .read(true)
        .write(true)
        .append(append)
        .open(rt, STATUS_FILE)
        .or_else(|_| {
            OpenOptions::new()
                .write(true)
                .append(append)
                .open(rt, STATUS_FILE)
        })
}

// At that place, where it has places: a pipe and a terminal have none.
fn put(rt: &HostRuntime, place: u64, append: bool, status: u8) -> io::Result<()> {
    let mut file = open(rt, append)?;
    let _ = file.seek(SeekFrom::Start(place));
    write!(file, "{status}")
}

fn put_by(rt: &HostRuntime, facts: &str, status: u8) -> io::Result<()> {
    let flags = u64::from_str_radix(fact(facts, FLAGS), 8).unwrap_or(READ_ONLY);
    let place = fact(facts, PLACE).parse::<u64>().unwrap_or(0);
    if flags & ACCESS == READ_ONLY {
        return Ok(());
    }
    put(rt, place, flags & APPEND != 0, status)
}

fn try_write(rt: &HostRuntime, status: u8) -> io::Result<()> {
    let mut space = [0u8; 512];
    let n = File::open(rt, STATUS_FACTS)?.read(&mut space)?;
    match str::from_utf8(&space[..n]) {
        Ok(facts) => put_by(rt, facts, status),
        Err(_) => Ok(()),
    }
}

// Where nothing takes the digit, nothing is written.
pub fn write(rt: &HostRuntime, status: u8) {
    let _ = try_write(rt, status);
}
