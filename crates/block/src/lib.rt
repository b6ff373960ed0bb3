// A block of 512 bytes: its head, and the check of all that stands before the check.
#![tactic(auto)]

ghost use Rattle.std.specs.Prelude.{◌≡◌, ◌+◌, ◌-◌, ◌≤◌, ◌<◌, length};
ghost use Rattle.field.specs.Bytes.{part, overlay, bytes_be};
ghost use Rattle.block.specs.Block.{block_size, head_size, checked_size, check_of, head_bytes, head_at, same_head, check_keeps};
ghost use Rattle.block.specs.Shapes.{strips, strip_size, column_sum};

pub const BLOCK_SIZE: usize = 512;

pub const HEAD_SIZE: usize = 14;

// Head and body; the check stands in the two bytes behind them.
pub const CHECKED_SIZE: usize = BLOCK_SIZE - 2;

pub const BODY_SIZE: usize = CHECKED_SIZE - HEAD_SIZE;

pub const MODULUS: usize = 65521;

// A block's sum, which is 33,227,775 at most.
type Sum = u32;

// The checked bytes are so many strips of one length, one after the other.
const STRIPS: usize = 15;

const STRIP_SIZE: usize = CHECKED_SIZE / STRIPS;

// What stands first in a block.
#[derive(Clone, Copy, Debug, PartialEq, Eq)]
pub struct Head {
    // The block's place, from 0.
    pub number: u16,
    // How many blocks there are.
    pub count: u16,
    pub version: u16,
    pub next: u64,
}

// The bytes at one place of every strip, the first at `at`, each times its weight. Two running sums, of bytes and of those sums, go from the
// last strip to the first; columns side by side do the same, so that the compiler takes several at a time.
fn column_sum(s: &[u8], at: usize, weight: usize) -> usize
    requires { (at + (checked_size - strip_size) < length s.now) × (weight ≤ strip_size) }
    ensures { result ≡ column_sum strip_size s.now at weight strips }
{
    let mut bytes: u16 = 0;
    let mut sums: u16 = 0;
    for strip in (0..STRIPS).rev() {
        sums += bytes;
        bytes += field::read::<u8>(s, at + strip * STRIP_SIZE) as u16;
    }
    weight * (bytes as usize) + STRIP_SIZE * (sums as usize)
}

// The check of the block at `at`. Its sum has room, so that one remainder will do.
pub fn check(s: &[u8], at: usize) -> u16
    requires { at + checked_size ≤ length s.now }
    ensures { result ≡ check_of (part s.now at checked_size) }
{
    let mut sum: Sum = 0;
    for i in 0..STRIP_SIZE {
        sum += column_sum(s, at + i, i + 1) as Sum;
    }
    (sum as usize % MODULUS) as u16
}

// Does the block at `at` hold its own check?
pub fn check_keeps(s: &[u8], at: usize) -> bool
    requires { at + block_size ≤ length s.now }
    ensures { result ≡ check_keeps s.now at }
{
    field::read::<u16>(s, at + CHECKED_SIZE) == check(s, at)
}

// The check of the block at `at`, to its place.
pub fn put_check(out: &mut [u8], at: usize)
    requires { at + block_size ≤ length out.old }
    ensures { out.new ≡ overlay out.old (at + checked_size) (bytes_be 2 (check_of (part out.old at checked_size))) }
{
    let sum = check(out, at);
    field::write::<u16>(out, at + CHECKED_SIZE, sum);
}

// The head, to its place in the block at `at`.
pub fn put_head(out: &mut [u8], at: usize, h: Head)
    requires { at + head_size ≤ length out.old }
    ensures { out.new ≡ overlay out.old at (head_bytes h) }
{
    field::write::<u16>(out, at, h.number);
    field::write::<u16>(out, at + 2, h.count);
    field::write::<u16>(out, at + 4, h.version);
    field::write::<u64>(out, at + 6, h.next);
}

// The head of the block at `at`.
pub fn read_head(s: &[u8], at: usize) -> Head
    requires { at + head_size ≤ length s.now }
    ensures { result ≡ head_at s.now at }
{
    Head {
        number: field::read::<u16>(s, at),
        count: field::read::<u16>(s, at + 2),
        version: field::read::<u16>(s, at + 4),
        next: field::read::<u64>(s, at + 6),
    }
}

// The same in each field.
#[tactic(auto, unfolding(crate::specs::Block::same_head))]
pub fn same_head(g: Head, h: Head) -> bool
    ensures { result ≡ same_head g h }
{
    g == h
}
