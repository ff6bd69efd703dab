// The covered count of a coverage map. Each function takes the number n of bits: no sum is over n, so that it fits.
#![tactic(auto)]

ghost use Rattle.std.specs.Prelude.{◌≡◌, ◌*◌, ◌/◌, ◌≤◌, length};
ghost use Rattle.plane.specs.Paint.{ones};

// The ones among the map's first n bits, in its whole words of eight bytes. The loop does nothing else, so that it is compiled to vectors.
fn count_words(map: &[u8], n: usize) -> usize
    requires { n ≤ 8 * length map.now }
    ensures { result ≡ ones (64 * (n / 64)) map.now }
{
    let mut sum = 0;
    for k in 0..n / 64 {
        sum += fields::u64_at(map, 8 * k as u64).count_ones() as usize;
    }
    sum
}

// The ones among the map's first n bits, whatever stands past them: the whole words, at most seven bytes, and the high bits of the last byte.
pub fn count_ones(map: &[u8], n: usize) -> usize
    requires { n ≤ 8 * length map.now }
    ensures { result ≡ ones n map.now }
{
    let whole = n / 8;
    let rest = n % 8;
    let mut sum = count_words(map, n);
    for k in n / 64 * 8..whole {
        sum += map[k].count_ones() as usize;
    }
    if rest > 0 {
        sum += (map[whole] >> (8 - rest)).count_ones() as usize;
    }
    sum
}
