// The bits of a bit string, high bit first, as a coverage map or a line of a mask: one read, one set, a range set.
#![tactic(auto)]

ghost use Rattle.std.specs.Prelude.{◌≡◌, ◌&&◌, ◌+◌, ◌*◌, ◌%◌, ◌<◌, ◌≤◌, leb, ltb, length};
ghost use Rattle.plane.specs.Paint.{bit, bit_in, mark, pack};

// Bit p, high bit first.
pub fn bit_at(s: &[u8], p: usize) -> bool
    requires { p < 8 * length s.now }
    ensures { result ≡ bit s.now p }
{
    (s[p / 8] >> (7 - p % 8)) % 2 == 1
}

// The byte whose set bits are those from number s up to number t.
fn ones_between(s: usize, t: usize) -> u8
    requires { (s ≤ t) × (t ≤ 8) }
    ensures { result ≡ pack (λ i. leb s i && ltb i t) }
{
    ((0xffu32 >> s) ^ (0xff >> t)) as u8
}

// Sets those bits of byte k that v has set.
fn or_byte(map: &mut [u8], k: usize, v: u8)
    requires { k < length map.old }
    ensures { map.new ≡ mark (8 * k + 8) (λ q. leb (8 * k) q && bit_in v (q % 8)) map.old }
{
    map[k] |= v;
}

// Sets bit p.
pub fn set_bit(map: &mut [u8], p: usize)
    requires { p < 8 * length map.old }
    ensures { map.new ≡ mark (p + 1) (λ q. leb p q) map.old }
{
    or_byte(map, p / 8, 128 >> (p % 8));
}

// Sets the bits from number s up to number t of byte k; a byte of which it sets none need not be there.
fn set_part(map: &mut [u8], k: usize, s: usize, t: usize)
    requires { (s ≤ t) × (t ≤ 8) × (8 * k + t ≤ 8 * length map.old) }
    ensures { map.new ≡ mark (8 * k + t) (λ q. leb (8 * k + s) q) map.old }
{
    if t > 0 {
        or_byte(map, k, ones_between(s, t));
    }
}

// Sets every bit of the bytes from number k up to number j. A byte `|` 255 is 255, so the compiler makes one fill of the loop.
fn set_whole(map: &mut [u8], k: usize, j: usize)
    requires { (k ≤ j) × (j ≤ length map.old) }
    ensures { map.new ≡ mark (8 * j) (λ q. leb (8 * k) q) map.old }
{
    for i in k..j {
        set_part(map, i, 0, 8);
    }
}

// Sets the bits from number `from` up to number `to`: the low bits of the first byte, whole bytes, the high bits of the last.
pub fn set_range(map: &mut [u8], from: usize, to: usize)
    requires { (from ≤ to) × (to ≤ 8 * length map.old) }
    ensures { map.new ≡ mark to (λ q. leb from q) map.old }
{
    let k = from / 8;
    let j = to / 8;
    if k == j {
        set_part(map, k, from % 8, to % 8);
    } else {
        set_part(map, k, from % 8, 8);
        set_whole(map, k + 1, j);
        set_part(map, j, 0, to % 8);
    }
}
