// Fields of a byte buffer: numbers of one, two, four and eight bytes, the highest byte first, and runs of bytes.
//
// A run of bytes is named by its slice, its place and its length, not by a slice of its own: the contracts say `part s at n`, and callers hand
// on the slice that they were lent, which costs nothing.
#![tactic(auto)]

ghost use Rattle.std.specs.Prelude.{ℕ, ◌≡◌, ◌+◌, ◌≤◌, ◌<◌, ◌^◌, length, replicate};
ghost use Rattle.field.specs.Bytes.{part, overlay, be, bytes_be, turned, same};

pub mod decimal;
pub mod limits;
pub mod text;

// A number of one, two, four or eight bytes, the highest first.
pub trait Number: Copy {
    // How many bytes it has.
    ghost width: { ℕ };

    ghost number: { Self → ℕ };

    // A number is that of one value alone, so that what is promised of the number fixes the value.
    ghost one_value: { (x y : Self) → number x ≡ number y → x ≡ y };

    fn read(s: &[u8], at: usize) -> Self
        requires { at + width ≤ length s.now }
        ensures { number result ≡ be (part s.now at width) };

    fn write(self, out: &mut [u8], at: usize)
        requires { at + width ≤ length out.old }
        ensures { out.new ≡ overlay out.old at (bytes_be width (number self)) };
}

impl Number for u8 {
    ghost width = { 1 };

    ghost number = { λ v. v };

    ghost one_value = { λ x y same_number. same_number };

    fn read(s: &[u8], at: usize) -> u8 {
        s[at]
    }

    fn write(self, out: &mut [u8], at: usize) {
        out[at] = self;
    }
}

impl Number for u16 {
    ghost width = { 2 };

    ghost number = { λ v. v };

    ghost one_value = { λ x y same_number. same_number };

    // A sum: with `from_be_bytes` a quote takes 8 instructions more.
    fn read(s: &[u8], at: usize) -> u16 {
        u8::read(s, at) as u16 * 256 + u8::read(s, at + 1) as u16
    }

    // Byte by byte: with `to_be_bytes` a quote takes 14 instructions more.
    fn write(self, out: &mut [u8], at: usize) {
        ((self / 256) as u8).write(out, at);
        ((self % 256) as u8).write(out, at + 1);
    }
}

// Four bytes at the width of eight. As one flat sum at that width it, and a number of eight bytes of two such, compile to one load. With
// `from_be_bytes` in place of it a quote for one instrument takes 390 instructions in place of 389 for a number of four bytes, and 400 for one of eight.
fn wide4(s: &[u8], at: usize) -> u64
    requires { at + 4 ≤ length s.now }
    ensures { (result ≡ be (part s.now at 4)) × (result < 2 ^ 32) }
{
    u8::read(s, at) as u64 * 16777216
        + u8::read(s, at + 1) as u64 * 65536
        + u8::read(s, at + 2) as u64 * 256
        + u8::read(s, at + 3) as u64
}

impl Number for u32 {
    ghost width = { 4 };

    ghost number = { λ v. v };

    ghost one_value = { λ x y same_number. same_number };

    fn read(s: &[u8], at: usize) -> u32 {
        wide4(s, at) as u32
    }

    // In halves: with `to_be_bytes` a quote takes 7 instructions more.
    fn write(self, out: &mut [u8], at: usize) {
        ((self / 65536) as u16).write(out, at);
        ((self % 65536) as u16).write(out, at + 2);
    }
}

impl Number for u64 {
    ghost width = { 8 };

    ghost number = { λ v. v };

    ghost one_value = { λ x y same_number. same_number };

    fn read(s: &[u8], at: usize) -> u64 {
        wide4(s, at) * 4294967296 + wide4(s, at + 4)
    }

    fn write(self, out: &mut [u8], at: usize) {
        put::<8>(out, at, &self.to_be_bytes());
    }
}

// The number that stands at `at`.
pub fn read<T: Number>(s: &[u8], at: usize) -> T
    requires { at + T.width ≤ length s.now }
    ensures { T.number result ≡ be (part s.now at T.width) }
{
    T::read(s, at)
}

// The number v, to out from `at` on.
pub fn write<T: Number>(out: &mut [u8], at: usize, v: T)
    requires { at + T.width ≤ length out.old }
    ensures { out.new ≡ overlay out.old at (bytes_be T.width (T.number v)) }
{
    v.write(out, at);
}

// Four bytes as they lie, the lowest first: turned, they are what `read::<u32>` reads. They compile to one load.
pub fn read4_low_first(s: &[u8], at: usize) -> u32
    requires { at + 4 ≤ length s.now }
    ensures { turned result ≡ be (part s.now at 4) }
{
    u32::from_le_bytes(bytes::<4>(s, at))
}

// The four bytes of a number in the other order.
#[tactic(auto, unfolding(crate::specs::Bytes::turned))]
pub fn turned(v: u32) -> u32
    ensures { result ≡ turned v }
{
    v.swap_bytes()
}

// The N bytes from `at` on.
pub fn bytes<const N: usize>(s: &[u8], at: usize) -> [u8; N]
    requires { at + N ≤ length s.now }
    ensures { result ≡ part s.now at N }
{
    let mut out = [0u8; N];
    for k in 0..N {
        out[k] = s[at + k];
    }
    out
}

// The N bytes of an array, to dst from `at` on.
pub fn put<const N: usize>(dst: &mut [u8], at: usize, from: &[u8; N])
    requires { at + N ≤ length dst.old }
    ensures { dst.new ≡ overlay dst.old at from.now }
{
    for k in 0..N {
        dst[at + k] = from[k];
    }
}

// The N bytes of src from `from` on, to dst from `at` on, as `copy` does: one load and one store where N is 1, 2, 4 or 8.
pub fn carry<const N: usize>(src: &[u8], from: usize, dst: &mut [u8], at: usize)
    requires { (from + N ≤ length src.now) × (at + N ≤ length dst.old) }
    ensures { dst.new ≡ overlay dst.old at (part src.now from N) }
{
    put::<N>(dst, at, &bytes::<N>(src, from));
}

// The n bytes of src from `from` on, to dst from `at` on.
pub fn copy(src: &[u8], from: usize, n: usize, dst: &mut [u8], at: usize)
    requires { (from + n ≤ length src.now) × (at + n ≤ length dst.old) }
    ensures { dst.new ≡ overlay dst.old at (part src.now from n) }
{
    for copied in 0..n {
        dst[at + copied] = src[from + copied];
    }
}

// n bytes of one value, to dst from `at` on.
pub fn fill(dst: &mut [u8], at: usize, n: usize, byte: u8)
    requires { at + n ≤ length dst.old }
    ensures { dst.new ≡ overlay dst.old at (replicate n byte) }
{
    for filled in 0..n {
        dst[at + filled] = byte;
    }
}

// Are the n bytes of a from i on those of b from j on? Without a branch, so that several are compared at once.
pub fn equal(a: &[u8], i: usize, b: &[u8], j: usize, n: usize) -> bool
    requires { (i + n ≤ length a.now) × (j + n ≤ length b.now) }
    ensures { result ≡ same (part a.now i n) (part b.now j n) }
{
    let mut same = true;
    for k in 0..n {
        same &= a[i + k] == b[j + k];
    }
    same
}
