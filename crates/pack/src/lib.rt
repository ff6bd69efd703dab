// Puts what segments are made of into a lent buffer: headers, fields, parts of a file, zero bytes. Callers have shown that it has room.
#![tactic(auto)]

ghost use Rattle.std.specs.Prelude.{◌≡◌, ◌+◌, ◌-◌, ◌≤◌, ◌^◌, length};
ghost use Rattle.format.specs.Bytes.{part_of};
ghost use Rattle.pack.specs.Pack.{long, zeros, allocated, segment_size, header};
ghost use Rattle.pack.specs.Put.{put};

// ---- sizes

// AllocatedSize of a content of n bytes.
pub fn allocated_size(n: u64) -> u64
    requires { n ≤ 2 ^ 60 }
    ensures { result ≡ allocated n }
{
    n.next_multiple_of(32)
}

// The length of a segment with a content of n bytes.
pub fn segment_size(n: u64) -> u64
    requires { n ≤ 2 ^ 60 }
    ensures { result ≡ segment_size n }
{
    32 + allocated_size(n)
}

// ---- bytes

// Puts n zero bytes from p on.
pub fn put_zeros(out: &mut [u8], p: u64, n: u64)
    requires { p + n ≤ length out.old }
    ensures { out.new ≡ put out.old p (zeros n) }
{
    out[p as usize..(p + n) as usize].fill(0);
}

// Puts the n bytes at q of s from p on.
pub fn put_part(out: &mut [u8], p: u64, s: &[u8], q: u64, n: u64)
    requires { (p + n ≤ length out.old) × (q + n ≤ length s.now) }
    ensures { out.new ≡ put out.old p (part_of s.now q n) }
{
    let part = &s[q as usize..(q + n) as usize];
    out[p as usize..(p + n) as usize].copy_from_slice(part);
}

// Puts a Long from p on.
pub fn put_long(out: &mut [u8], p: u64, x: u64)
    requires { p + 8 ≤ length out.old }
    ensures { out.new ≡ put out.old p (long x) }
{
    out[p as usize..(p + 8) as usize].copy_from_slice(&x.to_le_bytes());
}

// ---- segments

// Puts the header of a segment with a content of n bytes from p on.
pub fn put_header(out: &mut [u8], p: u64, name: &[u8], n: u64)
    requires { (p + 32 ≤ length out.old) × (length name.now ≡ 16) × (n ≤ 2 ^ 60) }
    ensures { out.new ≡ put out.old p (header name.now n) }
{
    put_part(out, p, name, 0, 16);
    put_long(out, p + 16, allocated_size(n));
    put_long(out, p + 24, n);
}

// Puts the padding of a segment with a content of n bytes, which ends at p.
pub fn put_padding(out: &mut [u8], p: u64, n: u64)
    requires { (p + (allocated n - n) ≤ length out.old) × (n ≤ 2 ^ 60) }
    ensures { out.new ≡ put out.old p (zeros (allocated n - n)) }
{
    put_zeros(out, p, allocated_size(n) - n);
}
