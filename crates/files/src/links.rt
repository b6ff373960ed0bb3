// The file that a name leads to: a chain of symbolic links is followed to its end, so that a file is replaced and no link is.
ghost use Rattle.std.specs.Prelude.{◌≡◌, ◌≤◌, IfErr, IfOk, IfSome, length};
ghost use Rattle.std.specs.IoError.{raw_os_error};
ghost use Rattle.std.specs.declared.option.Option.TheVariants.{None};

use crate::names;
use std::io;

// No chain that the system follows is longer.
const MOST_LINKS: usize = 40;

// So much of a link's text is read.
const MOST_TEXT: usize = 4096;

// How many bytes of a name stand before and with its last slash, 0 where it has none.
fn folder(path: &[u8]) -> usize
    ensures { result ≤ length path.now }
{
    match path.iter().rposition(|c| *c == b'/') {
        Some(slash) => slash + 1,
        None => 0,
    }
}

// How many bytes of a name stay when a link with that text is followed: none where the text is a whole path, else its folder.
fn base(path: &[u8], text: &[u8]) -> usize
    ensures { result ≤ length path.now }
{
    if text.starts_with(b"/") {
        return 0;
    }
    folder(path)
}

// One link followed: its text in place of the first n bytes of `path`, or behind their folder. Answers the new length, where there is room.
// The name grows where it stands, so its length goes beside the memory.
fn follow(path: &mut [u8], n: usize, text: &[u8]) -> Option<usize>
    requires { n ≤ length path.old }
    ensures { IfSome result (λ m. m ≤ length path.new) }
{
    let at = base(&path[..n], text);
    let size = text.len();
    if path.len() - at < size {
        return None;
    }
    path[at..at + size].copy_from_slice(text);
    Some(at + size)
}

// Puts the file that the first n bytes of `path` lead to at its front, and answers its length, where it has room and the chain has an end.
// No error is the system's: it says that there was no memory for the text of a link, or that a name is no UTF-8 text. No file is changed.
// The caller's memory holds both names, one after the other, so the first one's length goes beside it.
pub fn followed(rt: &HostRuntime, path: &mut [u8], n: usize) -> io::Result<Option<usize>>
    requires { n ≤ length path.old }
    ensures within { IfOk result (λ found. IfSome found (λ m. m ≤ length path.new)) }
    ensures not_os { IfErr result (λ e. raw_os_error e ≡ None) }
{
    let mut size = n;
    for _ in 0..MOST_LINKS {
        let Some(link) = names::read_link(rt, &path[..size])? else {
            return Ok(Some(size));
        };
        let all = link.as_str().as_bytes();
        let text = &all[..all.len().min(MOST_TEXT)];
        if text.is_empty() {
            return Ok(Some(size));
        }
        match follow(path, size, text) {
            Some(led) => size = led,
            None => return Ok(None),
        }
    }
    Ok(None)
}
