// How far a long input is, on standard error where that is a terminal: once a second at most, on one line that is cleared at the end.
use std::io::{IsTerminal, Print};
use std::rt::Clock;

// The second in which it was last shown, and the bytes and the first message's number so far.
#[derive(Clone, Copy)]
pub struct Progress {
    is_terminal: bool,
    is_shown: bool,
    second: u64,
    bytes: u64,
    first: u64,
}

// The second of the clock, 0 where the system does not say it.
fn second(rt: &HostRuntime) -> u64 {
    rt.since_1970().map_or(0, |time| time.as_secs())
}

impl Progress {
    pub fn start(rt: &HostRuntime, next: u64) -> Progress {
        Progress {
            is_terminal: rt.stderr().is_terminal(),
            is_shown: false,
            second: second(rt),
            bytes: 0,
            first: next,
        }
    }

    fn show(&self, rt: &HostRuntime, next: u64) {
        let bytes = self.bytes;
        let messages = next.saturating_sub(self.first);
        let _ = eprint!(rt; "\rtoplist: {bytes} bytes, {messages} messages");
    }

    // So many bytes more came, and the next message has that number.
    pub fn told(&mut self, rt: &HostRuntime, count: usize, next: u64) {
        self.bytes = self.bytes.saturating_add(count as u64);
        if !self.is_terminal {
            return;
        }
        let now = second(rt);
        if now != self.second {
            self.show(rt, next);
            self.second = now;
            self.is_shown = true;
        }
    }

    // Clears the line.
    pub fn clear(&self, rt: &HostRuntime) {
        if self.is_shown {
            let _ = Print::write_all(&rt.stderr(), b"\r\x1b[K");
        }
    }
}
