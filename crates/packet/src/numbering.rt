// The numbering of messages: each takes the next number.
ghost use Rattle.std.specs.Prelude.{◌≡◌, ◌<◌};
ghost use Rattle.field.specs.Limits.{highest_number};
ghost use Rattle.packet.specs.Numbering.{none_left, number_after};

use field::limits::HIGHEST_NUMBER;

pub const FIRST_NUMBER: u64 = 1;

// Have all numbers been taken?
pub fn none_left(next: u64) -> bool
    ensures { result ≡ none_left next }
{
    next == HIGHEST_NUMBER
}

pub fn number_after(next: u64) -> u64
    requires { next < highest_number }
    ensures { result ≡ number_after next }
{
    next + 1
}
