// Numbers in characters, read and written; a run of them is a slice, a place and a length, as everywhere in `field`.
ghost use Rattle.std.specs.Prelude.{◌≡◌, ◌+◌, ◌≤◌, length};
ghost use Rattle.field.specs.Bytes.{part, overlay};
ghost use Rattle.field.specs.Decimal.{Leads, number_of, number_after_spaces, number_before_spaces, digit_chars, digit_count, chars_then_spaces};

use crate::limits::HIGHEST_NUMBER;
use crate::text;

// What follows the first k of n characters, which are digits and write v: spaces alone.
fn closed_number(s: &[u8], at: usize, n: usize, k: usize, v: u64) -> Option<u64>
    requires { (at + n ≤ length s.now) × (k ≤ n) × Leads (part s.now at n) k v }
    ensures { result ≡ number_before_spaces (part s.now at n) }
{
    if k == 0 {
        return None;
    }
    if s[at] == b'0' {
        return None;
    }
    text::only(s, at + k, n - k, b' ').then_some(v)
}

// The number that the n bytes from `at` on write with digits and then spaces; none where they write no number of 1 to HIGHEST_NUMBER so.
pub fn number_before_spaces(s: &[u8], at: usize, n: usize) -> Option<u64>
    requires { at + n ≤ length s.now }
    ensures { result ≡ number_before_spaces (part s.now at n) }
{
    let mut v: u64 = 0;
    for k in 0..n {
        let c = s[at + k];
        if c < b'0' {
            return closed_number(s, at, n, k, v);
        }
        if b'9' < c {
            return None;
        }
        v = v * 10 + (c - b'0') as u64;
        if HIGHEST_NUMBER < v {
            return None;
        }
    }
    closed_number(s, at, n, n, v)
}

// The number that the n bytes write with digits alone, from `at` on: digits and then spaces, of which there are none.
fn unpadded_number(s: &[u8], at: usize, n: usize) -> Option<u64>
    requires { at + n ≤ length s.now }
    ensures { result ≡ number_of (part s.now at n) }
{
    if n == 0 {
        return None;
    }
    if s[at + (n - 1)] == b' ' {
        return None;
    }
    number_before_spaces(s, at, n)
}

// The number that the n bytes from `at` on write with spaces and then digits; none as above.
pub fn number_after_spaces(s: &[u8], at: usize, n: usize) -> Option<u64>
    requires { at + n ≤ length s.now }
    ensures { result ≡ number_after_spaces (part s.now at n) }
{
    let k = text::run(s, at, n, b' ', b' ');
    unpadded_number(s, at + k, n - k)
}

// How many decimal digits v has. Each turn divides, and counts no place.
pub fn digit_count(v: u64) -> usize
    ensures count { result ≡ digit_count v }
    ensures most { result ≤ 20 }
{
    let mut rest = v;
    let mut k = 1;
    while 10 <= rest {
        rest /= 10;
        k += 1;
    }
    k
}

// The n low decimal digits of v, to out from `at` on.
pub fn write_digits(out: &mut [u8], at: usize, n: usize, v: u64)
    requires { at + n ≤ length out.old }
    ensures { out.new ≡ overlay out.old at (digit_chars n v) }
{
    let mut rest = v;
    for i in (0..n).rev() {
        out[at + i] = b'0' + (rest % 10) as u8;
        rest /= 10;
    }
}

// The digits of v and then spaces, n characters in all, to out from `at` on.
pub fn write_number_before_spaces(out: &mut [u8], at: usize, n: usize, v: u64)
    requires { (at + n ≤ length out.old) × (digit_count v ≤ n) }
    ensures { out.new ≡ overlay out.old at (chars_then_spaces n v) }
{
    let k = digit_count(v);
    write_digits(out, at, k, v);
    crate::fill(out, at + k, n - k, b' ');
}
