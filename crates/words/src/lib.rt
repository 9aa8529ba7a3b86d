// Little-endian numbers in slices of bytes; columns of numbers: copies, sums.
#![tactic(auto)]

ghost use Rattle.std.specs.Prelude.{◌≡◌, map, ◌+◌, ◌≤◌, ◌<◌, length, take};
ghost use Rattle.std.proofs.lemmas.List.Edits.{sets};
ghost use Rattle.lists.specs.Lists.{sum};
ghost use Rattle.words.specs.Words.{le16, le32, le64, bytes16, bytes32, bytes64, short};

// The u16 whose lowest byte stands at `at`.
pub fn u16_at(s: &[u8], at: usize) -> u16
    requires { at + 2 ≤ length s.now }
    ensures { result ≡ le16 s.now at }
{
    u16::from_le_bytes([s[at], s[at + 1]])
}

// The u32 whose lowest byte stands at `at`.
pub fn u32_at(s: &[u8], at: usize) -> u32
    requires { at + 4 ≤ length s.now }
    ensures { result ≡ le32 s.now at }
{
    u32::from_le_bytes([s[at], s[at + 1], s[at + 2], s[at + 3]])
}

// The u64 whose lowest byte stands at `at`.
pub fn u64_at(s: &[u8], at: usize) -> u64
    requires { at + 8 ≤ length s.now }
    ensures { result ≡ le64 s.now at }
{
    u64::from_le_bytes([
        s[at],
        s[at + 1],
        s[at + 2],
        s[at + 3],
        s[at + 4],
        s[at + 5],
        s[at + 6],
        s[at + 7],
    ])
}

// Writes a u16 from `at` on, the lowest byte first.
pub fn put_u16(out: &mut [u8], at: usize, n: u16)
    requires { at + 2 ≤ length out.old }
    ensures { out.new ≡ sets out.old at (bytes16 n) }
{
    copy_to(&u16::to_le_bytes(n), out, at);
}

// Writes a u32 from `at` on, the lowest byte first.
pub fn put_u32(out: &mut [u8], at: usize, n: u32)
    requires { at + 4 ≤ length out.old }
    ensures { out.new ≡ sets out.old at (bytes32 n) }
{
    copy_to(&u32::to_le_bytes(n), out, at);
}

// Writes a u64 from `at` on, the lowest byte first.
pub fn put_u64(out: &mut [u8], at: usize, n: u64)
    requires { at + 8 ≤ length out.old }
    ensures { out.new ≡ sets out.old at (bytes64 n) }
{
    copy_to(&u64::to_le_bytes(n), out, at);
}

// Copies a list to the places from `at` on. One by one: `copy_from_slice` may call memmove, which a client of the static library
// need not have.
pub fn copy_to<T: Copy>(from: &[T], out: &mut [T], at: usize)
    requires { at + length from.now ≤ length out.old }
    ensures { out.new ≡ sets out.old at from.now }
{
    for (i, x) in from.iter().enumerate() {
        out[at + i] = *x;
    }
}

// A number as one of 16 bits; 65,535 for a larger one.
pub fn saturated(n: u64) -> u16
    ensures { result ≡ short n }
{
    n.min(65535) as u16
}

// Writes numbers as ones of 16 bits from `at` on.
pub fn put_saturated(ns: &[u64], out: &mut [u16], at: usize)
    requires { at + length ns.now ≤ length out.old }
    ensures { out.new ≡ sets out.old at (map short ns.now) }
{
    for (i, n) in ns.iter().enumerate() {
        out[at + i] = saturated(*n);
    }
}

// The sum of numbers.
pub fn sum_of(ns: &[u16]) -> usize
    requires { length ns.now ≤ 4096 }
    ensures { result ≡ sum ns.now }
{
    let mut total: usize = 0;
    for x in ns {
        total += usize::from(*x);
    }
    total
}
