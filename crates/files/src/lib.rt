// Files by their names: opened and read, and replaced whole or not at all. What fails is said in the name of the program that asked for it.
#![tactic(auto)]

ghost use Rattle.std.specs.Prelude.{◌≤◌, length};
ghost use Rattle.files.specs.Loading.{LoadedIn};

use std::fs::File;
use std::io;
use std::io::{Read, Write};
use std::random::RandomSource;

pub mod command_line;
pub mod complaints;
pub mod input;
mod links;
mod names;
pub mod status;

use crate::input::Input;

// No name that is written is longer, so that there is room for a dot and six letters behind it.
const MOST_NAME: usize = 4000;

// So many letters stand behind the name of a new file, and so often they are drawn where there is a file of that name already.
const LETTERS: usize = 6;

const MOST_DRAWS: u32 = 238_328;

// Reads on until the memory is full, the input is at its end or breaks off; how many bytes came?
fn read_full(input: &mut Input, space: &mut [u8]) -> usize
    ensures { result ≤ length space.new }
{
    let mut done = 0;

    // A read may bring less than it has room for, so what is counted is bytes and no turns; `read_exact` would not say how many came.
    while done < space.len() {
        match input.read(&mut space[done..]) {
            Ok(n) if n > 0 => done += n,
            _ => break,
        }
    }
    done
}

// The file's bytes at the start of `space`, as many as it has room for, and how many they are; nothing where it could not be read, which was said.
fn read_open(
    rt: &HostRuntime,
    program: &[u8],
    input: &mut Input,
    path: &[u8],
    space: &mut [u8],
) -> Option<usize>
    ensures { LoadedIn result space.new }
{
    match input.read(space) {
        Ok(0) => Some(0),
        Ok(n) => {
            let more = read_full(input, &mut space[n..]);
            Some(n + more)
        }
        Err(e) => {
            complaints::system(rt, program, path, e);
            None
        }
    }
}

// The same by the file's name.
pub fn load(rt: &HostRuntime, program: &[u8], path: &[u8], space: &mut [u8]) -> Option<usize>
    ensures { LoadedIn result space.new }
{
    let mut input = open(rt, program, path)?;
    let loaded = read_open(rt, program, &mut input, path, space);
    close(input);
    loaded
}

// A file to be read, where it can be opened.
pub fn open(rt: &HostRuntime, program: &[u8], path: &[u8]) -> Option<Input> {
    match names::open(rt, path) {
        Ok(file) => Some(Input::Opened(file)),
        Err(e) => {
            complaints::system(rt, program, path, e);
            None
        }
    }
}

// Standard input stays open.
pub fn close(_input: Input) {}

// Written, and on its device. It is closed then.
fn write_open(mut file: File, bytes: &[u8]) -> io::Result<()> {
    file.write_all(bytes)?;
    file.sync_all()
}

// Letters that the system draws.
fn draw(rt: &HostRuntime, letters: &mut [u8]) -> io::Result<()> {
    rt.fill_bytes(letters)?;
    for letter in letters.iter_mut() {
        *letter = b'a' + *letter % 26;
    }
    Ok(())
}

// A new file, of that name with other letters at its end.
fn create_drawn(rt: &HostRuntime, name: &mut [u8]) -> io::Result<File> {
    let letters = name.len().saturating_sub(LETTERS);
    draw(rt, &mut name[letters..])?;
    names::create_new(rt, name)
}

// The same, with letters that no file has there.
fn create(rt: &HostRuntime, name: &mut [u8]) -> io::Result<File> {
    for _ in 1..MOST_DRAWS {
        match create_drawn(rt, name) {
            Err(e) if e.kind() == io::ErrorKind::AlreadyExists => {}
            created => return created,
        }
    }
    create_drawn(rt, name)
}

// A file filled, and put in the target's place by the name that it has.
fn put_in_place(
    rt: &HostRuntime,
    target: &[u8],
    name: &[u8],
    file: File,
    bytes: &[u8],
) -> io::Result<()> {
    write_open(file, bytes)?;
    names::rename(rt, name, target)
}

// Fills a new file beside the target, of that name, and puts it in the target's place; or there is no new file.
fn replace(rt: &HostRuntime, target: &[u8], name: &mut [u8], bytes: &[u8]) -> io::Result<()> {
    let file = create(rt, name)?;
    let put = put_in_place(rt, target, name, file, bytes);
    if put.is_err() {
        let _ = names::remove(rt, name);
    }
    put
}

// The name of the new file: the target's with a dot and six letters more. This alone asks for a short name, so it has no type of its own.
fn store_at(rt: &HostRuntime, target: &[u8], bytes: &[u8]) -> io::Result<()>
    requires { length target.now ≤ 4000 }
{
    let mut space = [0u8; 4096];
    let n = target.len();
    space[..n].copy_from_slice(target);
    let end = n + 1 + LETTERS;
    space[n] = b'.';
    replace(rt, target, &mut space[..end], bytes)
}

// The same as `store`, where what the system says of an error is left to be complained of.
fn try_store(rt: &HostRuntime, program: &[u8], path: &[u8], bytes: &[u8]) -> io::Result<bool> {
    let mut target = [0u8; 4096];
    let n = path.len();
    if n > MOST_NAME {
        complaints::words(rt, program, b"the name of the file", b" is too long\n");
        return Ok(false);
    }
    target[..n].copy_from_slice(path);
    match links::followed(rt, &mut target, n)? {
        // No file has the empty name.
        None | Some(0) => {
            complaints::words(rt, program, path, b": leads to no file\n");
            Ok(false)
        }
        Some(size) if size > MOST_NAME => {
            complaints::words(
                rt,
                program,
                path,
                b": leads to a file whose name is too long\n",
            );
            Ok(false)
        }
        Some(size) => {
            store_at(rt, &target[..size], bytes)?;
            Ok(true)
        }
    }
}

// Replaces the file, or the one that a link leads to; was it?
pub fn store(rt: &HostRuntime, program: &[u8], path: &[u8], bytes: &[u8]) -> bool {
    match try_store(rt, program, path, bytes) {
        Ok(is_stored) => is_stored,
        Err(e) => {
            complaints::system(rt, program, path, e);
            false
        }
    }
}
