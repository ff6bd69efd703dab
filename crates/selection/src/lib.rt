// Selects the entries whose tiles a question asks for by its starts, and the layer of each.
#![tactic(auto)]

ghost use Rattle.std.specs.Prelude.{◌≡◌, ◌≤◌, false, cond, length};
ghost use Rattle.format.specs.Entry.{next_entry, dimensions_bad};
ghost use Rattle.format.specs.Rules.{AcceptedFile};
ghost use Rattle.format.specs.Choice.{asked_start, asked_layer};
ghost use Rattle.selection.specs.Select.{tile_start, start_count, free, has_start, selects};
ghost use Rattle.selection.specs.Layer.{HasAskedLayer};
ghost use Rattle.selection.specs.Table.{Selection};

// The letters of a plane's columns and rows, of a mosaic's tiles and of its scenes.
const X: u64 = b'X' as u64;

const Y: u64 = b'Y' as u64;

const M: u64 = b'M' as u64;

const S: u64 = b'S' as u64;

// The question's start for the letter x, plus 2^31: one that is not given is 0.
fn asked_start(starts: &[i32], x: u64) -> u64
    requires { (65 ≤ x) × (x ≤ 90) }
    ensures { result ≡ asked_start starts.now x }
{
    let given = starts.get((x - 65) as usize).copied();
    fields::shifted_of(given.unwrap_or(0))
}

// The tile's start for the letter x, plus 2^31: a letter that the tile lacks counts as 0.
#[tactic(auto, using(format::proofs::Flags::flags), unfolding(crate::specs::Select::tile_start))]
fn tile_start(s: &[u8], e: u64, x: u64) -> u64
    requires { next_entry s.now e ≤ length s.now }
    ensures { result ≡ tile_start s.now e x }
{
    if entries::holds_letter(s, e, x) {
        entries::biased_start(s, entries::letter_place(s, e, x))
    } else {
        1 << 31
    }
}

// X, Y and M select nothing, nor does S where it is "any".
#[tactic(auto, using(format::proofs::Flags::flags), unfolding(crate::specs::Select::free))]
fn is_free(any_scene: bool, x: u64) -> bool
    ensures { result ≡ free any_scene x }
{
    match x {
        X | Y | M => true,
        S => any_scene,
        _ => false,
    }
}

// How many starts the tile has in the letter x: 1 where it lacks it.
#[tactic(auto, using(format::proofs::Flags::flags), unfolding(crate::specs::Select::start_count))]
fn start_count(s: &[u8], e: u64, x: u64) -> u64
    requires { next_entry s.now e ≤ length s.now }
    ensures { result ≡ start_count s.now e x }
{
    if entries::holds_letter(s, e, x) {
        entries::size_at(s, entries::letter_place(s, e, x))
    } else {
        1
    }
}

// The tile has the question's start for the letter x. Its Size is read only where it starts before that.
fn has_start(s: &[u8], e: u64, starts: &[i32], any_scene: bool, x: u64) -> bool
    requires e_in_bounds { (next_entry s.now e ≤ length s.now) × (dimensions_bad s.now e ≡ false) }
    requires le_x { (65 ≤ x) × (x ≤ 90) }
    ensures { result ≡ has_start s.now e starts.now any_scene x }
{
    if is_free(any_scene, x) {
        return true;
    }
    let start = tile_start(s, e, x);
    let asked = asked_start(starts, x);
    start == asked || start < asked && asked - start < start_count(s, e, x)
}

// The entry at e is selected: no pyramid tile, and it has the question's start in each letter, from A to Z:
// a half-open range, since std has no lemma for what `all` answers over an inclusive one.
pub fn is_selected(s: &[u8], e: u64, starts: &[i32], any_scene: bool) -> bool
    requires { (next_entry s.now e ≤ length s.now) × (dimensions_bad s.now e ≡ false) }
    ensures { result ≡ selects s.now starts.now any_scene e }
{
    !entries::is_pyramid(s, e) && (65..91).all(|x| has_start(s, e, starts, any_scene, x))
}

// The entry's place where it is selected, 0 where it is not: a number and not an Option, so that 4,096 of them take 32 KiB of the fixed memory and not 64.
#[tactic(auto, using(format::proofs::Flags::flags))]
fn place_if_selected(s: &[u8], e: u64, starts: &[i32], any_scene: bool) -> u64
    requires { (next_entry s.now e ≤ length s.now) × (dimensions_bad s.now e ≡ false) }
    ensures { result ≡ cond (selects s.now starts.now any_scene e) e 0 }
{
    if is_selected(s, e, starts, any_scene) {
        e
    } else {
        0
    }
}

// The places of the selected entries of an accepted file go to the table, entry by entry, 0 for each other; answers how many entries there are.
pub fn select(s: &[u8], starts: &[i32], any_scene: bool, table: &mut [u64; 4096]) -> u64
    requires accepted_file { AcceptedFile s.now }
    requires table_len { length table.old ≡ 4096 }
    ensures { Selection s.now starts.now any_scene table.old table.new result }
{
    let n = judge::tile_count(s);
    let mut e = directory::first_entry(s);
    for k in 0..n {
        table[k as usize] = place_if_selected(s, e, starts, any_scene);
        e = entries::next_entry(s, e);
    }
    n
}

// The layer of a tile that the question asks for: 0 where it has no layers.
pub fn asked_layer(s: &[u8], e: u64, starts: &[i32]) -> u64
    requires e_in_bounds { (next_entry s.now e ≤ length s.now) × (dimensions_bad s.now e ≡ false) }
    requires has_asked_layer { HasAskedLayer s.now e starts.now }
    ensures { result ≡ asked_layer s.now e starts.now }
{
    if entries::is_layered(s, e) {
        let d = entries::layers_place(s, e);
        asked_start(starts, entries::letter_at(s, d)) - entries::biased_start(s, d)
    } else {
        0
    }
}
