// Where a run of equal bits ends, in a bit string with the high bit first: the coverage map, a mask's line.
#![tactic(auto)]

ghost use Rattle.std.specs.Prelude.{◌≡◌, true, ℕ, ◌*◌, ◌<◌, ◌≤◌, eqb, length, get_or};
ghost use Rattle.plane.specs.Paint.{bit, bit_in};
ghost use Rattle.runs.specs.Run.{Run, full, full_word, differing};

// The byte whose ones are the bits of x that are not v.
fn differing_bits(x: u8, v: bool) -> u8
    ensures { result ≡ differing x v }
{
    if v { 255 - x } else { x }
}

// The word of eight bytes whose bits are all v.
fn full_word(v: bool) -> u64
    ensures { result ≡ full_word v }
{
    if v { u64::MAX } else { 0 }
}

// The end of the run of bits v from bit number a of the byte x on.
fn run_in(x: u8, a: usize, v: bool) -> usize
    requires { a < 8 }
    ensures { Run (bit_in x) a 8 v result }
{
    let rest = differing_bits(x, v) as u16 % (256u16 >> a);
    (rest as u8).leading_zeros() as usize
}

// Passes words of eight bytes whose bits are all v, from byte k on and not past e.
fn pass_words(m: &[u8], k: usize, e: usize, v: bool) -> usize
    requires { (k ≤ e) × (e ≤ length m.now) }
    ensures { (k ≤ result) × (result ≤ e) × ((i : ℕ) → k ≤ i → i < result → get_or m.now i 0 ≡ full v) }
{
    let word = full_word(v);
    let words = (e - k) / 8;
    for j in 0..words {
        let i = k + 8 * j;
        if fields::u64_at(m, i as u64) != word {
            return i;
        }
    }
    k + 8 * words
}

// The end of the run of bytes whose bits are all v, from byte k on and not past e.
fn pass_bytes(m: &[u8], k: usize, e: usize, v: bool) -> usize
    requires { (k ≤ e) × (e ≤ length m.now) }
    ensures { Run (λ i. eqb (get_or m.now i 0) (full v)) k e true result }
{
    let byte = (full_word(v) % 256) as u8;
    let from = pass_words(m, k, e, v);
    for i in from..e {
        if m[i] != byte {
            return i;
        }
    }
    e
}

// The end of the run of bits v from the first bit of byte k on, not past bit number e.
fn run_from_byte(m: &[u8], k: usize, e: usize, v: bool) -> usize
    requires { (8 * k ≤ e) × (e ≤ 8 * length m.now) }
    ensures { Run (bit m.now) (8 * k) e v result }
{
    let j = pass_bytes(m, k, e / 8, v);
    let at = 8 * j;
    if at == e {
        return e;
    }
    let r = run_in(m[j], 0, v);
    if e - at <= r {
        return e;
    }
    at + r
}

// The end of the run of bits v from bit number a on, not past e: the first that is not v, or e.
pub fn run_end(m: &[u8], a: usize, e: usize, v: bool) -> usize
    requires { (a ≤ e) × (e ≤ 8 * length m.now) }
    ensures { Run (bit m.now) a e v result }
{
    if a == e {
        return e;
    }
    let k = a / 8;
    let at = 8 * k;
    let r = run_in(m[k], a % 8, v);
    if e - at <= r {
        return e;
    }
    if r < 8 {
        return at + r;
    }
    run_from_byte(m, k + 1, e, v)
}
