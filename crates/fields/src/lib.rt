// Reads numbers and byte strings out of a lent slice. The callers have shown that what is read lies in it.
#![tactic(auto)]

ghost use Rattle.std.specs.Prelude.{◌≡◌, ◌+◌, ◌*◌, ◌<◌, ◌≤◌, ◌^◌, get_or, length, eqb};
ghost use Rattle.std.specs.Float.Ieee.{of_bits};
ghost use Rattle.std.specs.Float.{binary32};
ghost use Rattle.format.specs.Bytes.{u32_at, u64_at, same_at, same_range, signed32, biased, shifted, part_of};
ghost use Rattle.format.specs.Records.{span};
ghost use Rattle.format.specs.Views.{View};

// The byte at p.
pub fn byte_at(s: &[u8], p: u64) -> u64
    requires { p < length s.now }
    ensures { (result ≡ get_or s.now p 0) × (result < 256) }
{
    u64::from(s[p as usize])
}

// The 32 bits at p.
pub fn u32_at(s: &[u8], p: u64) -> u64
    requires { p + 4 ≤ length s.now }
    ensures { (result ≡ u32_at s.now p) × (result < 2 ^ 32) }
{
    let at = p as usize;
    u64::from(u32::from_le_bytes([s[at], s[at + 1], s[at + 2], s[at + 3]]))
}

// The 64 bits at p.
pub fn u64_at(s: &[u8], p: u64) -> u64
    requires { p + 8 ≤ length s.now }
    ensures { result ≡ u64_at s.now p }
{
    let at = p as usize;
    u64::from_le_bytes([
        s[at],
        s[at + 1],
        s[at + 2],
        s[at + 3],
        s[at + 4],
        s[at + 5],
        s[at + 6],
        s[at + 7],
    ])
}

// Whether the n bytes at a of s are those at b of t. No byte ends the loop early, so that it is compiled to vectors.
pub fn same_range(n: u64, s: &[u8], a: u64, t: &[u8], b: u64) -> bool
    requires { (a + n ≤ length s.now) × (b + n ≤ length t.now) }
    ensures { result ≡ same_range n s.now a t.now b }
{
    let count = n as usize;
    let from = a as usize;
    let to = b as usize;
    let mut off: u8 = 0;
    for i in 0..count {
        off |= s[from + i] ^ t[to + i];
    }
    off == 0
}

// Whether the bytes of name stand at p.
pub fn same_at(s: &[u8], p: u64, name: &[u8]) -> bool
    requires { p + length name.now ≤ length s.now }
    ensures { result ≡ same_at s.now p name.now }
{
    same_range(name.len() as u64, s, p, name, 0)
}

// Whether the 16 bytes of name stand at p: they are compared as two words.
pub fn same_name(s: &[u8], p: u64, name: &[u8]) -> bool
    requires { (p + 16 ≤ length s.now) × (length name.now ≡ 16) }
    ensures { result ≡ same_at s.now p name.now }
{
    if u64_at(s, p) != u64_at(name, 0) {
        return false;
    }
    if u64_at(s, p + 8) != u64_at(name, 8) {
        return false;
    }
    true
}

// The n bytes from p on: the very part of the lent slice.
pub fn part(s: &[u8], p: u64, n: u64) -> &[u8]
    requires { p + n ≤ length s.now }
    ensures { View s.entry (span p n) result }
{
    let from = p as usize;
    let to = (p + n) as usize;
    &s[from..to]
}

// Copies the bytes from p on, as many as `out` has.
pub fn copy_out(out: &mut [u8], s: &[u8], p: u64)
    requires { p + length out.old ≤ length s.now }
    ensures { out.new ≡ part_of s.now p (length out.old) }
{
    let at = p as usize;
    let end = at + out.len();
    out.copy_from_slice(&s[at..end]);
}

// The value of an Int of these bits.
pub fn signed_of(x: u64) -> i32
    requires { x < 2 ^ 32 }
    ensures { result ≡ signed32 x }
{
    (x as u32).cast_signed()
}

// The value of an Int of these bits plus 2^31.
pub fn biased_of(x: u64) -> u64
    requires { x < 2 ^ 32 }
    ensures { result ≡ biased x }
{
    (x + 2147483648) % 4294967296
}

// The number x plus 2^31.
pub fn shifted_of(x: i32) -> u64
    ensures { (result ≡ shifted x) × (result < 2 ^ 32) }
{
    ((x as i64) + 2147483648) as u64
}

// The float of a bit pattern. In the logic all not-a-numbers are one value, and that one is made by a division.
pub fn float_of(bits: u32) -> f32
    ensures { result ≡ of_bits binary32 bits }
{
    let low = bits % 2147483648;
    if 2139095040 < low {
        return 0.0 / 0.0;
    }
    f32::from_bits(bits)
}

// Whether total is x times y times b, as whole numbers: the product may pass 64 bits.
pub fn is_product(total: u64, x: u64, y: u64, b: u64) -> bool
    requires { (x < 2 ^ 32) × (y < 2 ^ 32) × (0 < b) }
    ensures { result ≡ eqb total (x * y * b) }
{
    let over = total % b;
    if over != 0 {
        return false;
    }
    let pixels = x * y;
    let whole = total / b;
    if whole != pixels {
        return false;
    }
    true
}
