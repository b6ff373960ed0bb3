// What a program reads: standard input, or a file that it opened.
use std::fs::File;
use std::io;
use std::io::{Read, Stdin};

#[derive(Drop)]
pub enum Input {
    Standard(Stdin),
    Opened(File),
}

impl Read for Input {
    fn read(&mut self, space: &mut [u8]) -> io::Result<usize> {
        match self {
            Input::Standard(stdin) => stdin.read(space),
            Input::Opened(file) => file.read(space),
        }
    }
}
