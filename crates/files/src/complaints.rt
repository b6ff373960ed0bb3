// What a program complains of: one line on standard error that begins with the program's name. Where standard error takes no more,
// nothing can be said, and the program goes on.
use std::io;
use std::io::{Cursor, Print, Write};

// The numbers that the system has for two errors.
const INPUT_OUTPUT: i32 = 5;

const IS_A_DIRECTORY: i32 = 21;

// Behind the system's words for an error the library puts this, the error's number and a bracket.
const BEFORE_NUMBER: &str = " (os error ";

fn put(rt: &HostRuntime, bytes: &[u8]) {
    let _ = Print::write_all(&rt.stderr(), bytes);
}

fn begin(rt: &HostRuntime, program: &[u8]) {
    put(rt, program);
    put(rt, b": ");
}

fn without_number(text: &str) -> &str {
    text.rsplit_once(BEFORE_NUMBER)
        .map_or(text, |(words, _)| words)
}

// The error in words, without its number.
fn put_error(rt: &HostRuntime, error: io::Error) {
    let mut space = Cursor::new([0u8; 256]);
    let _ = write!(space, "{error}");
    let n = space.position() as usize;
    let text = space.into_inner();
    if let Ok(text) = str::from_utf8(&text[..n.min(text.len())]) {
        put(rt, without_number(text).as_bytes());
    }
}

// Why a file could not be used, as the system says it.
pub fn system(rt: &HostRuntime, program: &[u8], path: &[u8], error: io::Error) {
    begin(rt, program);
    put(rt, path);
    put(rt, b": ");
    put_error(rt, error);
    put(rt, b"\n");
}

// The same in words of our own, the line's end among them.
pub fn words(rt: &HostRuntime, program: &[u8], what: &[u8], why: &[u8]) {
    begin(rt, program);
    put(rt, what);
    put(rt, why);
}

// Words, and behind them the number of a refusal and the line's end.
pub fn refusal(rt: &HostRuntime, program: &[u8], what: &[u8], why: &[u8], number: u8) {
    words(rt, program, what, why);
    let _ = eprintln!(rt; "{number}");
}

// Standard output took less than it was given.
pub fn output(rt: &HostRuntime, program: &[u8], error: io::Error) {
    system(rt, program, b"standard output", error);
}

// The input broke off with that error.
pub fn input(rt: &HostRuntime, program: &[u8], path: &[u8], error: io::Error) {
    let why: &[u8] = match error.raw_os_error() {
        Some(IS_A_DIRECTORY) => b": Is a directory\n",
        Some(INPUT_OUTPUT) => b": Input/output error\n",
        _ => b": could not be read to its end\n",
    };
    words(rt, program, path, why);
}
