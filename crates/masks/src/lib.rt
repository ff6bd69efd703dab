// The chunks in a sub-block's attachment and their refusals, and the valid-pixel mask.
// A chunk is given by the file offset c of its header; end is the file offset behind the attachment.
#![tactic(auto)]

ghost use Rattle.std.specs.Prelude.{◌≡◌, Bool, true, false, ◌+◌, ◌-◌, ◌<◌, ◌≤◌, ◌^◌, length};
ghost use Rattle.format.specs.Checks.{first};
ghost use Rattle.format.specs.Masks.{chunk_size, chunk_bad, is_mask, mask_width, mask_height, mask_stride, mask_bad, mask_refused, chunk_rows, chunks_rows, mask_shape, chunk_at, mask_from, mask_valid};
ghost use Rattle.format.specs.Checks.{Accepted};

use format::{Chunk, Fault, MaskShape, Refusal, TileMask, Verdict};

// The length of a chunk's payload.
fn chunk_size(s: &[u8], c: u64) -> u64
    requires { c + 20 ≤ length s.now }
    ensures { (result ≡ chunk_size s.now c) × (result < 2 ^ 32) }
{
    fields::u32_at(s, c + 16)
}

// A mask's columns.
fn mask_width(s: &[u8], c: u64) -> u64
    requires { c + 36 ≤ length s.now }
    ensures { (result ≡ mask_width s.now c) × (result < 2 ^ 32) }
{
    fields::u32_at(s, c + 20)
}

// A mask's rows.
fn mask_height(s: &[u8], c: u64) -> u64
    requires { c + 36 ≤ length s.now }
    ensures { (result ≡ mask_height s.now c) × (result < 2 ^ 32) }
{
    fields::u32_at(s, c + 24)
}

// A mask's bytes a line.
fn mask_stride(s: &[u8], c: u64) -> u64
    requires { c + 36 ≤ length s.now }
    ensures { (result ≡ mask_stride s.now c) × (result < 2 ^ 32) }
{
    fields::u32_at(s, c + 32)
}

// Whether a chunk is a mask: the mask GUID stands in its header, in stored order.
fn is_mask(s: &[u8], c: u64) -> bool
    requires { c + 16 ≤ length s.now }
    ensures { result ≡ is_mask s.now c }
{
    fields::same_at(
        s,
        c,
        b"\x67\xea\xe3\xcb\xfc\x5b\x2b\x49\xa1\x6a\xec\xe3\x78\x03\x14\x48",
    )
}

// Refusal 17: the header doesn't fit, the size is negative, the payload doesn't fit.
fn chunk_bad(s: &[u8], end: u64, c: u64) -> bool
    requires { (c < end) × (end ≤ length s.now) }
    ensures { result ≡ chunk_bad s.now end c }
{
    if end < c + 20 {
        return true;
    }
    let size = chunk_size(s, c);
    if 2147483648 <= size {
        return true;
    }
    if end < c + 20 + size {
        return true;
    }
    false
}

// Refusal 18 for a mask by itself: the four fields don't fit, one is negative, the representation isn't 0, the columns don't fit a line,
// the lines don't fit the payload.
fn mask_bad(s: &[u8], c: u64) -> bool
    requires { c + 20 + chunk_size s.now c ≤ length s.now }
    ensures { result ≡ mask_bad s.now c }
{
    let size = chunk_size(s, c);
    if size < 16 {
        return true;
    }
    let width = mask_width(s, c);
    if 2147483648 <= width {
        return true;
    }
    let height = mask_height(s, c);
    if 2147483648 <= height {
        return true;
    }
    if fields::u32_at(s, c + 28) != 0 {
        return true;
    }
    let stride = mask_stride(s, c);
    if 2147483648 <= stride {
        return true;
    }
    if stride * 8 < width {
        return true;
    }
    if size < 16 + stride * height {
        return true;
    }
    false
}

// Refusal 18: a mask that is not as it should be, or a second one.
fn mask_refused(s: &[u8], seen: bool, c: u64) -> bool
    requires { c + 20 + chunk_size s.now c ≤ length s.now }
    ensures { result ≡ mask_refused s.now seen c }
{
    if is_mask(s, c) {
        if seen {
            return true;
        }
        return mask_bad(s, c);
    }
    false
}

// The refusals 17 and 18 for the chunk at c; seen: there was a mask before.
pub fn judge_chunk(s: &[u8], end: u64, seen: bool, c: u64) -> Verdict
    requires { (c < end) × (end ≤ length s.now) }
    ensures { result ≡ first (chunk_rows s.now end seen c) }
{
    if chunk_bad(s, end, c) {
        return Err(Refusal {
            fault: Fault::Chunk,
            place: c,
        });
    }
    if mask_refused(s, seen, c) {
        return Err(Refusal {
            fault: Fault::Mask,
            place: c,
        });
    }
    Ok(())
}

// A mask's dimensions.
fn mask_shape(s: &[u8], c: u64) -> MaskShape
    requires { c + 36 ≤ length s.now }
    ensures { result ≡ mask_shape s.now c }
{
    let width = mask_width(s, c);
    let height = mask_height(s, c);
    let stride = mask_stride(s, c);
    MaskShape {
        width,
        height,
        stride,
    }
}

// The chunk at c. Of a mask the four fields have to lie in the slice.
pub fn chunk_at(s: &[u8], c: u64) -> Chunk
    requires c_in_bounds { c + 20 ≤ length s.now }
    requires c_in_bounds_2 { is_mask s.now c ≡ true → c + 36 ≤ length s.now }
    ensures { result ≡ chunk_at s.now c }
{
    let mask = if is_mask(s, c) {
        Some(mask_shape(s, c))
    } else {
        None
    };
    Chunk {
        place: c,
        length: chunk_size(s, c),
        mask,
    }
}

// The refusals 17 and 18 for the chunks that fill the attachment from a to end.
pub fn judge_chunks(s: &[u8], a: u64, end: u64) -> Verdict
    requires { (a ≤ end) × (end ≤ length s.now) }
    ensures { result ≡ first (chunks_rows (end - a) s.now end false a) }
{
    let mut seen = false;
    let mut c = a;
    // a while loop: each chunk says where the next one begins
    while c < end {
        judge_chunk(s, end, seen, c)?;
        let chunk = chunk_at(s, c);
        seen |= chunk.mask.is_some();
        c = c + 20 + chunk.length;
    }
    Ok(())
}

// The mask among the chunks that fill the attachment from a to end, of which none is refused.
pub fn mask_in(s: &[u8], a: u64, end: u64) -> Option<TileMask>
    requires a_le_end { (a ≤ end) × (end ≤ length s.now) }
    requires a_value { first (chunks_rows (end - a) s.now end false a) ≡ Accepted }
    ensures { result ≡ mask_from (end - a) s.now end a }
{
    let mut c = a;
    // a while loop: each chunk says where the next one begins
    while c < end {
        let chunk = chunk_at(s, c);
        if let Some(shape) = chunk.mask {
            return Some(TileMask { place: c, shape });
        }
        c = c + 20 + chunk.length;
    }
    None
}

// Whether the mask of the chunk at c says that the pixel in column x of row y is valid.
pub fn mask_valid(s: &[u8], c: u64, x: u64, y: u64) -> bool
    requires { (mask_bad s.now c ≡ false) × (c + 20 + chunk_size s.now c ≤ length s.now) }
    ensures { result ≡ mask_valid s.now c x y }
{
    if mask_width(s, c) <= x {
        return false;
    }
    if mask_height(s, c) <= y {
        return false;
    }
    let line = y * mask_stride(s, c);
    let byte = fields::byte_at(s, c + 36 + line + x / 8);
    (byte >> (7 - x % 8)) % 2 == 1
}
