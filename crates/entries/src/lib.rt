// Judges and reads an entry of the sub-block directory and its dimensions. The callers have shown that what is read lies in the slice.
#![tactic(auto)]

ghost use Rattle.std.specs.Prelude.{◌≡◌, ◌+◌, ◌*◌, ◌<◌, ◌≤◌, ◌^◌, false, length};
ghost use Rattle.format.specs.Bytes.{any_below, biased};
ghost use Rattle.format.specs.Entry.{pixel_type, file_position, entry_part, compression, pyramid_byte, dimension_count, dimension_place, next_entry};
ghost use Rattle.format.specs.Entry.{letter, start, size, coordinate_bits, stored_field, stored};
ghost use Rattle.format.specs.Entry.{head_bad, letter_bad, too_far, is_plane, most_size, plane_size_bad, other_size_bad, size_bad, dimension_bad, has_letter, repeats, closes_plane};
ghost use Rattle.format.specs.Entry.{has_layers, layers_bad, dimensions_bad};
ghost use Rattle.format.specs.Entry.{letter_index, letter_place, is_pyramid, is_layered, layers_index, layers_place, layer_count, pixel_bytes};
ghost use Rattle.format.specs.Records.{extent_at, m_index_of, layers_of, dimension_at};

use format::{Dimension, Extent, Layers};

// ---- the fields of the entry at e

// PixelType.
pub fn pixel_type(s: &[u8], e: u64) -> u64
    requires { e + 32 ≤ length s.now }
    ensures { (result ≡ pixel_type s.now e) × (result < 2 ^ 32) }
{
    fields::u32_at(s, e + 2)
}

// FilePosition: where its sub-block stands.
pub fn file_position(s: &[u8], e: u64) -> u64
    requires { e + 32 ≤ length s.now }
    ensures { result ≡ file_position s.now e }
{
    fields::u64_at(s, e + 6)
}

// FilePart.
pub fn file_part(s: &[u8], e: u64) -> u64
    requires { e + 32 ≤ length s.now }
    ensures { (result ≡ entry_part s.now e) × (result < 2 ^ 32) }
{
    fields::u32_at(s, e + 14)
}

// Compression.
pub fn compression(s: &[u8], e: u64) -> u64
    requires { e + 32 ≤ length s.now }
    ensures { (result ≡ compression s.now e) × (result < 2 ^ 32) }
{
    fields::u32_at(s, e + 18)
}

// The pyramid byte.
pub fn pyramid_byte(s: &[u8], e: u64) -> u64
    requires { e + 32 ≤ length s.now }
    ensures { (result ≡ pyramid_byte s.now e) × (result < 256) }
{
    fields::byte_at(s, e + 22)
}

// How many dimensions the entry has.
pub fn dimension_count(s: &[u8], e: u64) -> u64
    requires { e + 32 ≤ length s.now }
    ensures { (result ≡ dimension_count s.now e) × (result < 2 ^ 32) }
{
    fields::u32_at(s, e + 28)
}

// The place of its dimension k.
pub fn dimension_place(e: u64, k: u64) -> u64
    requires { dimension_place e k < 2 ^ 64 }
    ensures { result ≡ dimension_place e k }
{
    e + 32 + 20 * k
}

// The place behind the entry.
pub fn next_entry(s: &[u8], e: u64) -> u64
    requires { e + 32 ≤ length s.now }
    ensures { result ≡ next_entry s.now e }
{
    dimension_place(e, dimension_count(s, e))
}

// ---- the fields of the dimension at d

// Its letter.
pub fn letter_at(s: &[u8], d: u64) -> u64
    requires { d + 20 ≤ length s.now }
    ensures { (result ≡ letter s.now d) × (result < 2 ^ 32) }
{
    fields::u32_at(s, d)
}

// The bits of Start.
pub fn start_at(s: &[u8], d: u64) -> u64
    requires { d + 20 ≤ length s.now }
    ensures { (result ≡ start s.now d) × (result < 2 ^ 32) }
{
    fields::u32_at(s, d + 4)
}

// Start plus 2^31.
pub fn biased_start(s: &[u8], d: u64) -> u64
    requires { d + 20 ≤ length s.now }
    ensures { (result ≡ biased (start s.now d)) × (result < 2 ^ 32) }
{
    fields::biased_of(start_at(s, d))
}

// Size.
pub fn size_at(s: &[u8], d: u64) -> u64
    requires { d + 20 ≤ length s.now }
    ensures { (result ≡ size s.now d) × (result < 2 ^ 32) }
{
    fields::u32_at(s, d + 8)
}

// The bits of StartCoordinate.
pub fn coordinate_bits(s: &[u8], d: u64) -> u64
    requires { d + 20 ≤ length s.now }
    ensures { (result ≡ coordinate_bits s.now d) × (result < 2 ^ 32) }
{
    fields::u32_at(s, d + 12)
}

// StoredSize.
pub fn stored_field(s: &[u8], d: u64) -> u64
    requires { d + 20 ≤ length s.now }
    ensures { (result ≡ stored_field s.now d) × (result < 2 ^ 32) }
{
    fields::u32_at(s, d + 16)
}

// The stored size: StoredSize, where 0 is read as Size.
pub fn stored_at(s: &[u8], d: u64) -> u64
    requires { d + 20 ≤ length s.now }
    ensures { result ≡ stored s.now d }
{
    let field = stored_field(s, d);
    if field == 0 {
        return size_at(s, d);
    }
    field
}

// ---- refusal 11

// Refusal 11 for the mark and the number of dimensions.
pub fn head_bad(s: &[u8], e: u64) -> bool
    requires { e + 32 ≤ length s.now }
    ensures { result ≡ head_bad s.now e }
{
    if !fields::same_at(s, e, b"DV") {
        return true;
    }
    let n = dimension_count(s, e);
    if n == 0 {
        return true;
    }
    if 16 < n {
        return true;
    }
    false
}

// The letter is not one of A to Z and three zero bytes.
fn letter_bad(s: &[u8], d: u64) -> bool
    requires { d + 20 ≤ length s.now }
    ensures { result ≡ letter_bad s.now d }
{
    let letter = letter_at(s, d);
    if letter < 65 {
        return true;
    }
    if 90 < letter {
        return true;
    }
    false
}

// Start + Size, as signed numbers, is over 2^31 - 1: each is taken with 2^31 added.
fn too_far(s: &[u8], d: u64) -> bool
    requires { d + 20 ≤ length s.now }
    ensures { result ≡ too_far s.now d }
{
    let end = biased_start(s, d) + fields::biased_of(size_at(s, d));
    if 6442450943 < end {
        return true;
    }
    false
}

// X or Y.
fn is_plane(letter: u64) -> bool
    ensures { result ≡ is_plane letter }
{
    if letter == 88 {
        return true;
    }
    if letter == 89 {
        return true;
    }
    false
}

// The largest Size of a letter that is not X or Y.
fn most_size(letter: u64) -> u64
    ensures { result ≡ most_size letter }
{
    if letter == 77 {
        return 1;
    }
    if letter == 83 {
        return 1;
    }
    1024
}

// X and Y have a Size of at least 1.
fn plane_size_bad(s: &[u8], d: u64) -> bool
    requires { d + 20 ≤ length s.now }
    ensures { result ≡ plane_size_bad s.now d }
{
    let size = size_at(s, d);
    if size == 0 {
        return true;
    }
    if 2147483648 <= size {
        return true;
    }
    false
}

// Any other dimension has a Size of 1 to 1,024, M and S of 1, and stored size Size.
fn other_size_bad(s: &[u8], d: u64) -> bool
    requires { d + 20 ≤ length s.now }
    ensures { result ≡ other_size_bad s.now d }
{
    let size = size_at(s, d);
    if size == 0 {
        return true;
    }
    if most_size(letter_at(s, d)) < size {
        return true;
    }
    if stored_at(s, d) != size {
        return true;
    }
    false
}

// The Size or the stored size is not one that the letter may have.
fn size_bad(s: &[u8], d: u64) -> bool
    requires { d + 20 ≤ length s.now }
    ensures { result ≡ size_bad s.now d }
{
    if is_plane(letter_at(s, d)) {
        return plane_size_bad(s, d);
    }
    other_size_bad(s, d)
}

// The dimension at d is not well formed by itself.
fn dimension_bad(s: &[u8], d: u64) -> bool
    requires { d + 20 ≤ length s.now }
    ensures { result ≡ dimension_bad s.now d }
{
    if letter_bad(s, d) {
        return true;
    }
    if too_far(s, d) {
        return true;
    }
    if 2147483648 <= stored_field(s, d) {
        return true;
    }
    if size_bad(s, d) {
        return true;
    }
    false
}

// Some dimension of the entry is not well formed by itself.
#[tactic(auto, unfolding(format::specs::Entry::next_entry))]
fn some_bad(s: &[u8], e: u64) -> bool
    requires { next_entry s.now e ≤ length s.now }
    ensures { result ≡ any_below (dimension_count s.now e) (λ k. dimension_bad s.now (dimension_place e k)) }
{
    let n = dimension_count(s, e);
    (0..n).any(|k| dimension_bad(s, dimension_place(e, k)))
}

// Dimension k of the entry has the letter x.
fn has_letter(s: &[u8], e: u64, x: u64, k: u64) -> bool
    requires { dimension_place e k + 20 ≤ length s.now }
    ensures { result ≡ has_letter s.now e x k }
{
    if letter_at(s, dimension_place(e, k)) == x {
        return true;
    }
    false
}

// One of the entry's first j dimensions has the letter x. A loop, and no `any`: 26 letters of each tile ask for it, and a selection takes a third longer by that.
fn holds_below(s: &[u8], e: u64, x: u64, j: u64) -> bool
    requires { dimension_place e j ≤ length s.now }
    ensures { result ≡ any_below j (has_letter s.now e x) }
{
    for k in 0..j {
        if has_letter(s, e, x, k) {
            return true;
        }
    }
    false
}

// The letter of dimension j stands before it too.
fn repeats_at(s: &[u8], e: u64, j: u64) -> bool
    requires { dimension_place e j + 20 ≤ length s.now }
    ensures { result ≡ repeats s.now e j }
{
    let x = letter_at(s, dimension_place(e, j));
    holds_below(s, e, x, j)
}

// A letter stands twice.
#[tactic(auto, unfolding(format::specs::Entry::next_entry))]
fn some_repeats(s: &[u8], e: u64) -> bool
    requires { next_entry s.now e ≤ length s.now }
    ensures { result ≡ any_below (dimension_count s.now e) (repeats s.now e) }
{
    let n = dimension_count(s, e);
    (0..n).any(|k| repeats_at(s, e, k))
}

// Dimension j is Y, and X stands before it.
fn closes_plane(s: &[u8], e: u64, j: u64) -> bool
    requires { dimension_place e j + 20 ≤ length s.now }
    ensures { result ≡ closes_plane s.now e j }
{
    if has_letter(s, e, 89, j) {
        return holds_below(s, e, 88, j);
    }
    false
}

// X stands, and Y after it.
#[tactic(auto, unfolding(format::specs::Entry::next_entry))]
fn some_closes(s: &[u8], e: u64) -> bool
    requires { next_entry s.now e ≤ length s.now }
    ensures { result ≡ any_below (dimension_count s.now e) (closes_plane s.now e) }
{
    let n = dimension_count(s, e);
    (0..n).any(|k| closes_plane(s, e, k))
}

// Dimension k of the entry has layers.
fn has_layers(s: &[u8], e: u64, k: u64) -> bool
    requires { dimension_place e k + 20 ≤ length s.now }
    ensures { result ≡ has_layers s.now e k }
{
    let d = dimension_place(e, k);
    if is_plane(letter_at(s, d)) {
        return false;
    }
    if 1 < size_at(s, d) {
        return true;
    }
    false
}

// One of the entry's first j dimensions has layers.
fn layers_below(s: &[u8], e: u64, j: u64) -> bool
    requires { dimension_place e j ≤ length s.now }
    ensures { result ≡ any_below j (has_layers s.now e) }
{
    (0..j).any(|k| has_layers(s, e, k))
}

// Dimension j has layers, and so has one before it, or Y does not stand before it.
fn layers_bad(s: &[u8], e: u64, j: u64) -> bool
    requires { dimension_place e j + 20 ≤ length s.now }
    ensures { result ≡ layers_bad s.now e j }
{
    if !has_layers(s, e, j) {
        return false;
    }
    if layers_below(s, e, j) {
        return true;
    }
    if !holds_below(s, e, 89, j) {
        return true;
    }
    false
}

// A second dimension has layers, or one before Y.
#[tactic(auto, unfolding(format::specs::Entry::next_entry))]
fn some_layers_bad(s: &[u8], e: u64) -> bool
    requires { next_entry s.now e ≤ length s.now }
    ensures { result ≡ any_below (dimension_count s.now e) (layers_bad s.now e) }
{
    let n = dimension_count(s, e);
    (0..n).any(|k| layers_bad(s, e, k))
}

// Refusal 11 for the dimensions.
pub fn dimensions_bad(s: &[u8], e: u64) -> bool
    requires { next_entry s.now e ≤ length s.now }
    ensures { result ≡ dimensions_bad s.now e }
{
    if some_bad(s, e) {
        return true;
    }
    if some_repeats(s, e) {
        return true;
    }
    if !some_closes(s, e) {
        return true;
    }
    if some_layers_bad(s, e) {
        return true;
    }
    false
}

// The entry has a dimension of the letter x.
pub fn holds_letter(s: &[u8], e: u64, x: u64) -> bool
    requires { next_entry s.now e ≤ length s.now }
    ensures { result ≡ any_below (dimension_count s.now e) (has_letter s.now e x) }
{
    let n = dimension_count(s, e);
    holds_below(s, e, x, n)
}

// The number of the dimension of the letter x; the number of dimensions where there is none.
#[tactic(auto, unfolding(format::specs::Entry::next_entry))]
pub fn letter_index(s: &[u8], e: u64, x: u64) -> u64
    requires { next_entry s.now e ≤ length s.now }
    ensures { result ≡ letter_index s.now e x }
{
    let n = dimension_count(s, e);
    for k in 0..n {
        if has_letter(s, e, x, k) {
            return k;
        }
    }
    n
}

// The place of the dimension of the letter x; the place behind the entry where there is none.
pub fn letter_place(s: &[u8], e: u64, x: u64) -> u64
    requires { next_entry s.now e ≤ length s.now }
    ensures { result ≡ letter_place s.now e x }
{
    dimension_place(e, letter_index(s, e, x))
}

// A pyramid tile: stored X or stored Y is not Size.
pub fn is_pyramid(s: &[u8], e: u64) -> bool
    requires { (next_entry s.now e ≤ length s.now) × (dimensions_bad s.now e ≡ false) }
    ensures { result ≡ is_pyramid s.now e }
{
    let x = letter_place(s, e, 88);
    if stored_at(s, x) != size_at(s, x) {
        return true;
    }
    let y = letter_place(s, e, 89);
    if stored_at(s, y) != size_at(s, y) {
        return true;
    }
    false
}

// ---- the dimension with layers

// The entry's sub-block has layers.
pub fn is_layered(s: &[u8], e: u64) -> bool
    requires { next_entry s.now e ≤ length s.now }
    ensures { result ≡ is_layered s.now e }
{
    let n = dimension_count(s, e);
    layers_below(s, e, n)
}

// The number of the dimension with layers; the number of dimensions where there is none.
#[tactic(auto, unfolding(format::specs::Entry::next_entry))]
fn layers_index(s: &[u8], e: u64) -> u64
    requires { next_entry s.now e ≤ length s.now }
    ensures { result ≡ layers_index s.now e }
{
    let n = dimension_count(s, e);
    (0..n).find(|k| has_layers(s, e, *k)).unwrap_or(n)
}

// Its place; the place behind the entry where there is none.
pub fn layers_place(s: &[u8], e: u64) -> u64
    requires { next_entry s.now e ≤ length s.now }
    ensures { result ≡ layers_place s.now e }
{
    dimension_place(e, layers_index(s, e))
}

// How many layers the sub-block has; 1 where no dimension has several.
pub fn layer_count(s: &[u8], e: u64) -> u64
    requires { next_entry s.now e ≤ length s.now }
    ensures { (result ≡ layer_count s.now e) × (0 < result) × (result < 2 ^ 32) }
{
    if is_layered(s, e) {
        return size_at(s, layers_place(s, e));
    }
    1
}

// Bytes a pixel; 0 where the type is not listed.
pub fn pixel_bytes(t: u64) -> u64
    ensures { result ≡ pixel_bytes t }
{
    match t {
        0 => 1,
        1 => 2,
        2 => 4,
        3 => 3,
        4 => 6,
        8 => 12,
        9 => 4,
        10 => 8,
        11 => 24,
        _ => 0,
    }
}

// The dimension at d as X or Y.
pub fn extent_at(s: &[u8], d: u64) -> Extent
    requires { d + 20 ≤ length s.now }
    ensures { result ≡ extent_at s.now d }
{
    let start = fields::signed_of(start_at(s, d));
    let size = size_at(s, d);
    let stored = stored_at(s, d);
    Extent {
        start,
        size,
        stored,
    }
}

// The dimension of the letter x, which the entry has, as X or Y.
pub fn letter_extent(s: &[u8], e: u64, x: u64) -> Extent
    requires { (next_entry s.now e ≤ length s.now) × (letter_place s.now e x + 20 ≤ length s.now) }
    ensures { result ≡ extent_at s.now (letter_place s.now e x) }
{
    extent_at(s, letter_place(s, e, x))
}

// The Start of M (77), if the entry has one.
pub fn m_index_of(s: &[u8], e: u64) -> Option<i32>
    requires { next_entry s.now e ≤ length s.now }
    ensures { result ≡ m_index_of s.now e }
{
    if holds_letter(s, e, 77) {
        let d = letter_place(s, e, 77);
        return Some(fields::signed_of(start_at(s, d)));
    }
    None
}

// The letter, the start and the size of the layers, if there are any.
pub fn layers_of(s: &[u8], e: u64) -> Option<Layers>
    requires { next_entry s.now e ≤ length s.now }
    ensures { result ≡ layers_of s.now e }
{
    if is_layered(s, e) {
        let d = layers_place(s, e);
        let letter = letter_at(s, d);
        let start = fields::signed_of(start_at(s, d));
        let size = size_at(s, d);
        return Some(Layers {
            letter,
            start,
            size,
        });
    }
    None
}

// The dimension record of the dimension at d. The bits of StartCoordinate stand beside it.
pub fn dimension_at(s: &[u8], d: u64) -> Dimension
    requires { d + 20 ≤ length s.now }
    ensures { result ≡ dimension_at s.now d }
{
    let letter = letter_at(s, d);
    let start = fields::signed_of(start_at(s, d));
    let size = size_at(s, d);
    let coordinate_bits = coordinate_bits(s, d) as u32;
    let coordinate = fields::float_of(coordinate_bits);
    let stored = stored_at(s, d);
    Dimension {
        letter,
        start,
        size,
        coordinate,
        coordinate_bits,
        stored,
    }
}
