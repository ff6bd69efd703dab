// Bytes copied from slice to slice, or within one, at the speed of memmove.
#![tactic(auto)]

ghost use Rattle.std.specs.Prelude.{◌≡◌, ◌+◌, ◌≤◌, length};
ghost use Rattle.copies.specs.Copied.{copied, moved, block_size};

// The bytes of a block: `blockSize` of the contracts. blank's steps go by it, and the test of the built archive knows it.
pub const BLOCK: usize = 12288;

// Copies the bytes from number a up to number e, to the same numbers: for the few bytes of a pixel. (`copy_from_slice` calls memmove for them:
// a row of drawn bits then takes 43.0 us in place of 37.3 with one byte a pixel, and 54.5 in place of 43.0 with a mask.)
#[tactic(auto, using(crate::proofs::Copies::copied_none, crate::proofs::Copies::copied_more))]
pub fn copy_few(dst: &mut [u8], src: &[u8], a: usize, e: usize)
    requires { (a ≤ e) × (e ≤ length dst.old) × (e ≤ length src.now) }
    ensures { dst.new ≡ copied dst.old src.now a e }
{
    for i in 0..e - a {
        dst[a + i] = src[a + i];
    }
}

// Copies n bytes of the slice, at most a block's, from number q on, to number p on.
#[tactic(auto, using(crate::proofs::Moves::moved_paste))]
pub fn copy_within(dst: &mut [u8], p: usize, q: usize, n: usize)
    requires { (p + n ≤ length dst.old) × (q + n ≤ length dst.old) × (n ≤ block_size) }
    ensures { dst.new ≡ moved dst.old dst.old p q n }
{
    dst.copy_within(q..q + n, p);
}

// Copies the bytes from number a up to number e, to the same numbers.
#[tactic(auto, using(crate::proofs::Moves::copied_put))]
pub fn copy_range(dst: &mut [u8], src: &[u8], a: usize, e: usize)
    requires { (a ≤ e) × (e ≤ length dst.old) × (e ≤ length src.now) }
    ensures { dst.new ≡ copied dst.old src.now a e }
{
    dst[a..e].copy_from_slice(&src[a..e]);
}
