// The start of a composition over lent bytes: background, and a zero map.
#![tactic(auto)]

ghost use Rattle.std.specs.Prelude.{◌≡◌, true, cond, ◌*◌, ◌≤◌, ◌+◌, ◌%◌, ◌/◌, leb, length, get_or};
ghost use Rattle.copies.specs.Copied.{block_size};
ghost use Rattle.blank.specs.Front.{front, Alike};
ghost use Rattle.blank.specs.Blank.{FillRoom, BackgroundFilled, Cleared};

// Whether all bytes of the pixel are its first, as they are in black, in white and in every pixel of one byte.
fn uniform(bg: &[u8]) -> bool
    requires { 1 ≤ length bg.now }
    ensures { (result ≡ true → Alike bg.now (length bg.now)) × (Alike bg.now (length bg.now) → result ≡ true) }
{
    let v = bg[0];
    bg.iter().all(|x| *x == v)
}

// The width of the next step: twice this one, while that is at most a block.
fn wider(w: usize) -> usize
    requires { w ≤ block_size }
    ensures { result ≡ cond (leb w (block_size / 2)) (w + w) w }
{
    if w <= copies::BLOCK / 2 { w + w } else { w }
}

// The first b bytes are repeated up to number end: the bytes from 0 on are copied on, twice as many each time, up to a block.
fn repeat(dst: &mut [u8], b: usize, end: usize)
    requires { (1 ≤ b) × (b ≤ block_size) × (b ≤ end) × (end ≤ length dst.old) }
    ensures { dst.new ≡ front (λ i. get_or dst.old (i % b) 0) end dst.old }
{
    let mut w = b;
    let mut k = b;
    // a while loop: a step may be twice the step before it
    while k < end {
        let n = w.min(end - k);
        let (done, rest) = dst.split_at_mut(k);
        rest[..n].copy_from_slice(&done[..n]);
        k += n;
        w = wider(w);
    }
}

// The first n pixels of b bytes become the background pixel.
pub fn fill(target: &mut [u8], n: usize, b: usize, bg: &[u8])
    requires { FillRoom target.old n b bg.now }
    ensures { BackgroundFilled target.old n b bg.now target.new }
{
    let end = n * b;
    if uniform(bg) {
        target[..end].fill(bg[0]);
    } else if n > 0 {
        target[..b].copy_from_slice(bg);
        repeat(target, b, end);
    }
}

// The bytes that hold the first n bits of the map become zero.
pub fn clear(map: &mut [u8], n: usize)
    requires { n ≤ 8 * length map.old }
    ensures { Cleared map.old n map.new }
{
    map[..n.div_ceil(8)].fill(0);
}
