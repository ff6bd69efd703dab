// Judges a sub-block against its directory entry and reads the tile record. The entry lies in the slice d, the sub-block in the slice s.
#![tactic(auto)]

ghost use Rattle.std.specs.Prelude.{◌≡◌, ◌+◌, ◌<◌, ◌≤◌, ◌^◌, length, eqb};
ghost use Rattle.format.specs.Checks.{first};
ghost use Rattle.format.specs.Entry.{dimension_count, next_entry, layer_count};
ghost use Rattle.format.specs.SubBlock.{metadata_size, attachment_size, data_size, fixed_part, copy_bad, sub_block_bad, layer_size, pixels_size, contents_bad};
ghost use Rattle.format.specs.SubBlock.{metadata_place, pixels_place, layer_pixels_place, attachment_place};
ghost use Rattle.format.specs.Directory.{attachment_rows};
ghost use Rattle.format.specs.Masks.{has_chunks};
ghost use Rattle.format.specs.Records.{metadata_span, pixels_span, attachment_span, mask_of, tile_at};
ghost use Rattle.subblocks.specs.Judged.{Listed, Placed, CopyAgrees, Filled, Judged};

use format::{Release, Span, Tile, TileMask, Verdict};

// ---- the fields of the sub-block at q

// MetadataSize.
fn metadata_size(s: &[u8], q: u64) -> u64
    requires { q + 48 ≤ length s.now }
    ensures { (result ≡ metadata_size s.now q) × (result < 2 ^ 32) }
{
    fields::u32_at(s, q + 32)
}

// AttachmentSize.
fn attachment_size(s: &[u8], q: u64) -> u64
    requires { q + 48 ≤ length s.now }
    ensures { (result ≡ attachment_size s.now q) × (result < 2 ^ 32) }
{
    fields::u32_at(s, q + 36)
}

// DataSize.
fn data_size(s: &[u8], q: u64) -> u64
    requires { q + 48 ≤ length s.now }
    ensures { result ≡ data_size s.now q }
{
    fields::u64_at(s, q + 40)
}

// F of the entry at e.
fn fixed_part(d: &[u8], e: u64) -> u64
    requires { (dimension_count d.now e ≤ 16) × (next_entry d.now e ≤ length d.now) }
    ensures { (result ≡ fixed_part (dimension_count d.now e)) × (result ≤ 368) }
{
    let f = 48 + 20 * entries::dimension_count(d, e);
    if f < 256 {
        return 256;
    }
    f
}

// ---- refusals 15 and 16

// Whether the copy differs from the entry in a byte other than 23 to 27.
fn copy_bad(d: &[u8], e: u64, s: &[u8], q: u64) -> bool
    requires { (dimension_count d.now e ≤ 16) × (next_entry d.now e ≤ length d.now) × (q + 32 + fixed_part (dimension_count d.now e) ≤ length s.now) }
    ensures { result ≡ copy_bad d.now e s.now q }
{
    if !fields::same_range(23, d, e, s, q + 48) {
        return true;
    }
    let n = entries::dimension_count(d, e);
    if !fields::same_range(4 + 20 * n, d, e + 28, s, q + 76) {
        return true;
    }
    false
}

// Refusal 15.
pub fn sub_block_bad(d: &[u8], e: u64, s: &[u8], q: u64) -> bool
    requires { Placed d.now e s.now q }
    ensures { result ≡ sub_block_bad d.now e s.now q }
{
    if segments::room_at(s, q) < fixed_part(d, e) {
        return true;
    }
    if copy_bad(d, e, s, q) {
        return true;
    }
    false
}

// Whether DataSize is stored X times stored Y times bytes a pixel, for each layer.
fn is_pixels_size(d: &[u8], e: u64, size: u64) -> bool
    requires { Listed d.now e }
    ensures { result ≡ eqb size (pixels_size d.now e) }
{
    let x = entries::stored_at(d, entries::letter_place(d, e, 88));
    let y = entries::stored_at(d, entries::letter_place(d, e, 89));
    let bytes = entries::pixel_bytes(entries::pixel_type(d, e));
    let layers = entries::layer_count(d, e);
    fields::is_product(size, x, y, bytes * layers)
}

// Refusal 16.
pub fn contents_bad(d: &[u8], e: u64, s: &[u8], q: u64) -> bool
    requires { CopyAgrees d.now e s.now q }
    ensures { result ≡ contents_bad d.now e s.now q }
{
    let metadata = metadata_size(s, q);
    if 2147483648 <= metadata {
        return true;
    }
    let attachment = attachment_size(s, q);
    if 2147483648 <= attachment {
        return true;
    }
    let data = data_size(s, q);
    if 9223372036854775808 <= data {
        return true;
    }
    let fixed = fixed_part(d, e);
    if segments::room_at(s, q) < fixed + metadata + data + attachment {
        return true;
    }
    if !is_pixels_size(d, e, data) {
        return true;
    }
    false
}

// ---- where the parts lie

// Where the metadata begins.
fn metadata_place(d: &[u8], e: u64, s: &[u8], q: u64) -> u64
    requires { CopyAgrees d.now e s.now q }
    ensures { result ≡ metadata_place d.now e q }
{
    q + 32 + fixed_part(d, e)
}

// Where the pixels begin.
pub fn pixels_place(d: &[u8], e: u64, s: &[u8], q: u64) -> u64
    requires { Filled d.now e s.now q }
    ensures { result ≡ pixels_place d.now e s.now q }
{
    metadata_place(d, e, s, q) + metadata_size(s, q)
}

// The bytes of one layer, which lie in the sub-block.
fn layer_size(d: &[u8], e: u64) -> u64
    requires { Listed d.now e × (layer_size d.now e < 2 ^ 64) }
    ensures { result ≡ layer_size d.now e }
{
    let x = entries::stored_at(d, entries::letter_place(d, e, 88));
    let y = entries::stored_at(d, entries::letter_place(d, e, 89));
    let bytes = entries::pixel_bytes(entries::pixel_type(d, e));
    x * y * bytes
}

// Where the pixels of layer l begin.
pub fn layer_pixels_place(d: &[u8], e: u64, s: &[u8], q: u64, l: u64) -> u64
    requires { Filled d.now e s.now q × (l < layer_count d.now e) }
    ensures { result ≡ layer_pixels_place d.now e s.now q l }
{
    let first = pixels_place(d, e, s, q);
    if l == 0 {
        return first;
    }
    first + l * layer_size(d, e)
}

// Where the attachment begins.
fn attachment_place(d: &[u8], e: u64, s: &[u8], q: u64) -> u64
    requires { Filled d.now e s.now q }
    ensures { result ≡ attachment_place d.now e s.now q }
{
    pixels_place(d, e, s, q) + data_size(s, q)
}

// The stretch of the metadata.
pub fn metadata_span(d: &[u8], e: u64, s: &[u8], q: u64) -> Span
    requires { Filled d.now e s.now q }
    ensures { result ≡ metadata_span d.now e s.now q }
{
    let start = metadata_place(d, e, s, q);
    let length = metadata_size(s, q);
    Span { start, length }
}

// The stretch of the pixels.
pub fn pixels_span(d: &[u8], e: u64, s: &[u8], q: u64) -> Span
    requires { Filled d.now e s.now q }
    ensures { result ≡ pixels_span d.now e s.now q }
{
    let start = pixels_place(d, e, s, q);
    let length = data_size(s, q);
    Span { start, length }
}

// The stretch of the attachment.
pub fn attachment_span(d: &[u8], e: u64, s: &[u8], q: u64) -> Span
    requires { Filled d.now e s.now q }
    ensures { result ≡ attachment_span d.now e s.now q }
{
    let start = attachment_place(d, e, s, q);
    let length = attachment_size(s, q);
    Span { start, length }
}

// ---- the attachment's chunks

// Whether the attachment is a chunk container: the release is 1.2, and the metadata declare one.
fn has_chunks(d: &[u8], e: u64, s: &[u8], q: u64, release: Release) -> bool
    requires { Filled d.now e s.now q }
    ensures { result ≡ has_chunks d.now e s.now q release }
{
    match release {
        Release::R102 => false,
        Release::R12 => {
            markup::section::is_container(s, metadata_place(d, e, s, q), metadata_size(s, q))
        }
    }
}

// Refusals 17 and 18 of the attachment. The metadata are read only where there is one.
pub fn judge_attachment(d: &[u8], e: u64, s: &[u8], q: u64, release: Release) -> Verdict
    requires { Filled d.now e s.now q }
    ensures { result ≡ first (attachment_rows d.now e s.now q release) }
{
    let n = attachment_size(s, q);
    if n == 0 {
        return Ok(());
    }
    if !has_chunks(d, e, s, q, release) {
        return Ok(());
    }
    let a = attachment_place(d, e, s, q);
    masks::judge_chunks(s, a, a + n)
}

// The tile's mask.
pub fn mask_of(d: &[u8], e: u64, s: &[u8], q: u64, release: Release) -> Option<TileMask>
    requires { Judged d.now e s.now q release }
    ensures { result ≡ mask_of d.now e s.now q release }
{
    let n = attachment_size(s, q);
    if n == 0 {
        return None;
    }
    if !has_chunks(d, e, s, q, release) {
        return None;
    }
    let a = attachment_place(d, e, s, q);
    masks::mask_in(s, a, a + n)
}

// ---- the tile record

// The tile record of entry n.
pub fn tile_at(n: u64, d: &[u8], e: u64, s: &[u8], q: u64, release: Release) -> Tile
    requires { Judged d.now e s.now q release }
    ensures { result ≡ tile_at n d.now e s.now q release }
{
    let x = entries::letter_extent(d, e, 88);
    let y = entries::letter_extent(d, e, 89);
    let m = entries::m_index_of(d, e);
    let layers = entries::layers_of(d, e);
    let pixel_type = entries::pixel_type(d, e);
    let pyramid = entries::pyramid_byte(d, e);
    let dimensions = entries::dimension_count(d, e);
    let metadata = metadata_span(d, e, s, q);
    let pixels = pixels_span(d, e, s, q);
    let attachment = attachment_span(d, e, s, q);
    let mask = mask_of(d, e, s, q, release);
    Tile {
        entry: n,
        place: e,
        pixel_type,
        position: q,
        pyramid,
        dimensions,
        x,
        y,
        m,
        layers,
        metadata,
        pixels,
        attachment,
        mask,
    }
}
