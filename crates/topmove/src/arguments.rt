// The program's arguments.
ghost use Rattle.std.specs.Prelude.{◌≤◌};

use files::command_line;
use image::Way;

// Which way a table is moved, and the places of FILE and NEW among the arguments.
#[derive(Clone, Copy)]
pub struct Move {
    pub way: Way,
    pub file: usize,
    pub new: usize,
}

#[derive(Clone, Copy)]
pub enum Choice {
    Move(Move),
    Help,
    Wrong,
}

#[derive(Clone, Copy)]
pub struct Wanted {
    pub choice: Choice,
    // Is the status to be written?
    pub status: bool,
}

// The word at that place, and two arguments behind it, or help.
fn choice_at(rt: &HostRuntime, place: usize) -> Choice
    requires { place ≤ 2 }
{
    let mut text = [0u8; 8];
    let n = command_line::argument(rt, place, &mut text);
    let way = match &text[..n] {
        b"--help" => return Choice::Help,
        b"forward" => Way::Forward,
        b"back" => Way::Back,
        _ => return Choice::Wrong,
    };
    if command_line::count(rt) != place + 3 {
        return Choice::Wrong;
    }
    Choice::Move(Move {
        way,
        file: place + 1,
        new: place + 2,
    })
}

pub fn read(rt: &HostRuntime) -> Wanted {
    let mut text = [0u8; 8];
    let n = command_line::argument(rt, 1, &mut text);
    let status = &text[..n] == b"--status".as_slice();
    Wanted {
        choice: choice_at(rt, if status { 2 } else { 1 }),
        status,
    }
}
