// The arguments that a program was started with, its own name the first of them. They are bytes, which need not be text.
ghost use Rattle.std.specs.Prelude.{◌≤◌, length};

use std::env::FillError;
use std::rt::Env;

// The argument at that place, to the front of `space`; answers its length, 0 where there is none or where it has no room. A length and no slice:
// the contract of a slice that is handed on can't name the memory that it lies in.
pub fn argument(rt: &HostRuntime, place: usize, space: &mut [u8]) -> usize
    ensures { result ≤ length space.new }
{
    match rt.arg(place, space) {
        Ok(n) => n,
        Err(_) => 0,
    }
}

fn has(rt: &HostRuntime, place: usize) -> bool {
    !matches!(rt.arg(place, &mut [0u8; 1]), Err(FillError::NotPresent))
}

// How many there are.
pub fn count(rt: &HostRuntime) -> usize {
    (0..usize::MAX)
        .find(|place| !has(rt, *place))
        .unwrap_or(usize::MAX)
}
