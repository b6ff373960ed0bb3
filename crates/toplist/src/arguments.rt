// The program's arguments.
use files::command_line;
use std::rt::Env;

// What is asked for, and the places of the files' names among the arguments. It says on what to run and picks no step, so it is handed on whole.
#[derive(Clone, Copy, Default)]
pub struct Wanted {
    pub wrong: bool,
    pub help: bool,
    pub status: bool,
    pub from: Option<usize>,
    pub save: Option<usize>,
    pub session: Option<usize>,
}

#[derive(Clone, Copy)]
enum Choice {
    Help,
    Status,
    From,
    Save,
    Session,
    Other,
}

// An argument that begins with a dash is an option, and any other a file.
fn option_at(rt: &HostRuntime, place: usize) -> Choice {
    let mut text = [0u8; 16];
    let filled = rt.arg(place, &mut text);
    if text[0] != b'-' {
        return if text[0] == 0 {
            Choice::Other
        } else {
            Choice::Session
        };
    }
    match filled {
        Ok(n) => named(&text[..n]),
        Err(_) => Choice::Other,
    }
}

// Every text is a choice, so this can't fail, and is no TryFrom.
fn named(text: &[u8]) -> Choice {
    match text {
        b"--help" => Choice::Help,
        b"--status" => Choice::Status,
        b"--from" => Choice::From,
        b"--save" => Choice::Save,
        _ => Choice::Other,
    }
}

// A file's place, where there is one and none stood before; was it so?
fn set_once(file: &mut Option<usize>, place: Option<usize>) -> bool {
    if file.is_some() || place.is_none() {
        return false;
    }
    *file = place;
    true
}

// Each option for a file stands once, and its file follows it, so the loop takes both from the same places.
pub fn read(rt: &HostRuntime) -> Wanted {
    let mut wanted = Wanted::default();
    let mut places = 1..command_line::count(rt);
    while let Some(place) = places.next() {
        let is_known = match option_at(rt, place) {
            Choice::Help => {
                wanted.help = true;
                true
            }
            Choice::Status => {
                wanted.status = true;
                true
            }
            Choice::From => set_once(&mut wanted.from, places.next()),
            Choice::Save => set_once(&mut wanted.save, places.next()),
            Choice::Session => set_once(&mut wanted.session, Some(place)),
            Choice::Other => false,
        };
        if !is_known {
            wanted.wrong = true;
            break;
        }
    }
    wanted
}
