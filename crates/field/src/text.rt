// Runs of characters, and texts padded with spaces; a run is a slice, a place and a length, as everywhere in `field`.
ghost use Rattle.std.specs.Prelude.{◌≡◌, ◌+◌, ◌≤◌, length, not};
ghost use Rattle.std.specs.List.{position_from};
ghost use Rattle.field.specs.Bytes.{part};
ghost use Rattle.field.specs.Text.{within, every, leading, is_text};

// The place of the first byte that does not lie from low to high.
fn first_outside(s: &[u8], low: u8, high: u8) -> Option<usize>
    ensures { result ≡ position_from (λ c. not (within low high c)) 0 s.now }
{
    s.iter().position(|c| *c < low || high < *c)
}

// How many of the n bytes from `at` on, counted from the first, lie from low to high.
pub fn run(s: &[u8], at: usize, n: usize, low: u8, high: u8) -> usize
    requires { at + n ≤ length s.now }
    ensures count { result ≡ leading (within low high) (part s.now at n) }
    ensures most { result ≤ n }
{
    first_outside(&s[at..at + n], low, high).unwrap_or(n)
}

// Are the n bytes from `at` on all this one? Without a branch, so that several are compared at once: with `all` the writing of a record
// took 185 instructions more.
pub fn only(s: &[u8], at: usize, n: usize, byte: u8) -> bool
    requires { at + n ≤ length s.now }
    ensures { result ≡ every (within byte byte) (part s.now at n) }
{
    let mut same = true;
    for k in 0..n {
        same &= s[at + k] == byte;
    }
    same
}

// Printable characters but for the space, one at least, and then spaces alone.
pub fn is_text(s: &[u8], at: usize, n: usize) -> bool
    requires { at + n ≤ length s.now }
    ensures { result ≡ is_text (part s.now at n) }
{
    let k = run(s, at, n, 33, 126);
    if k == 0 {
        return false;
    }
    run(s, at + k, n - k, b' ', b' ') == n - k
}
