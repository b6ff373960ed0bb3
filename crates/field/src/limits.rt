// The limits that document 01 sets on numbers.
ghost use Rattle.std.specs.Prelude.{◌≡◌, ◌+◌, ◌≤◌, length};
ghost use Rattle.field.specs.Bytes.{part, be};
ghost use Rattle.field.specs.Limits.{time_in_range, number_in_range, price_in_range, ten_thousandths};

use crate::Number;

pub const LATEST_TIME: u64 = 86399999999999;

// Its two halves of four bytes: the latest time is LATEST_HIGH * 2^32 + LATEST_LOW.
const LATEST_HIGH: u32 = 20116;

const LATEST_LOW: u32 = 2437873663;

pub const HIGHEST_NUMBER: u64 = 1000000000000;

pub const PRICE_END: u32 = 2147483648;

pub fn time_in_range(t: u64) -> bool
    ensures { result ≡ time_in_range t }
{
    t <= LATEST_TIME
}

pub fn number_in_range(n: u64) -> bool
    ensures { result ≡ number_in_range n }
{
    (1 <= n) & (n <= HIGHEST_NUMBER)
}

pub fn price_in_range(p: u32) -> bool
    ensures { result ≡ price_in_range p }
{
    p < PRICE_END
}

pub fn ten_thousandths(pennies: u16) -> u32
    ensures { result ≡ ten_thousandths pennies }
{
    pennies as u32 * 100
}

// Is the time that stands at `at` in range? Its high half decides but for the last seconds of the day, and is one load.
pub fn time_keeps(s: &[u8], at: usize) -> bool
    requires { at + 8 ≤ length s.now }
    ensures { result ≡ time_in_range (be (part s.now at 8)) }
{
    let high = u32::read(s, at);
    if high < LATEST_HIGH {
        return true;
    }
    if LATEST_HIGH < high {
        return false;
    }
    u32::read(s, at + 4) <= LATEST_LOW
}

// Is the price that stands at `at` in range? Its first byte says it.
pub fn price_keeps(s: &[u8], at: usize) -> bool
    requires { at + 4 ≤ length s.now }
    ensures { result ≡ price_in_range (be (part s.now at 4)) }
{
    u8::read(s, at) < 128
}
