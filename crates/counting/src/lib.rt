// Marks the tiles that a question selects and those of them that share a pixel with its window, and counts both.
#![tactic(auto)]

ghost use Rattle.std.specs.Prelude.{◌≡◌, ◌+◌, ◌≤◌, ◌<◌, ◌^◌, leb, length};
ghost use Rattle.format.specs.Directory.{tile_count};
ghost use Rattle.format.specs.Rules.{AcceptedFile};
ghost use Rattle.format.specs.declared.Release.{Release};
ghost use Rattle.subblocks.specs.Judged.{Listed};
ghost use Rattle.question.specs.Question.{window_of};
ghost use Rattle.counting.specs.Chosen.{shares, mark_at, sought, seek, TilesMarked, ChosenAnswered};

use format::{Fault, Refusal, Release};
use plane::Rect;

// How many tiles a question selects, and how many of those share a pixel with its window.
#[derive(Clone, Copy)]
pub struct ChosenCounts {
    pub selected: u64,
    pub meeting: u64,
}

// ---- one tile

// Whether the rectangle a and the window w share a pixel. A window without a pixel shares none.
#[tactic(auto, using(format::proofs::Flags::flags), unfolding(crate::specs::Chosen::shares))]
fn shares_pixel(a: Rect, w: Rect) -> bool
    requires { (a.left + a.width < 2 ^ 64) × (a.top + a.height < 2 ^ 64) × (w.left + w.width < 2 ^ 64) × (w.top + w.height < 2 ^ 64) }
    ensures { result ≡ shares a w }
{
    w.width != 0 && w.height != 0 && tiles::meets_window(a, w)
}

// The mark of the tile of the entry at e, under every release: 0 not selected, 1 selected, 2 selected and it shares a pixel with the window.
// A byte and not an enum, since C lends the marks and reads them.
fn mark_at(s: &[u8], e: u64, starts: &[i32], any_scene: bool, w: Rect) -> u8
    requires listed { Listed s.now e }
    requires width_bound { (w.left + w.width < 2 ^ 64) × (w.top + w.height < 2 ^ 64) }
    ensures { (rel : Release) → result ≡ mark_at (seek s.now rel starts.now any_scene w) e }
{
    if !selection::is_selected(s, e, starts, any_scene) {
        0
    } else if !shares_pixel(tiles::rectangle_of(s, e), w) {
        1
    } else {
        2
    }
}

// ---- all of them

// The window in plane coordinates: the signed ones plus 2^31.
fn window_of(left: i32, top: i32, width: u32, height: u32) -> Rect
    ensures { (result ≡ window_of left top width height) × (result.left + result.width < 2 ^ 33) × (result.top + result.height < 2 ^ 33) }
{
    Rect {
        left: fields::shifted_of(left) as usize,
        top: fields::shifted_of(top) as usize,
        width: width as usize,
        height: height as usize,
    }
}

// Marks the tiles of an accepted file, and counts: the same under every release.
fn mark_all(s: &[u8], starts: &[i32], any_scene: bool, w: Rect, marks: &mut [u8]) -> ChosenCounts
    requires accepted_file { AcceptedFile s.now × (tile_count s.now ≤ length marks.old) }
    requires width_bound { (w.left + w.width < 2 ^ 64) × (w.top + w.height < 2 ^ 64) }
    ensures { TilesMarked s.now starts.now any_scene w marks.old marks.new result }
{
    let n = judge::tile_count(s);
    let mut e = directory::first_entry(s);
    let mut selected: u64 = 0;
    let mut meeting: u64 = 0;
    for k in 0..n {
        let mark = mark_at(s, e, starts, any_scene, w);
        marks[k as usize] = mark;
        selected += u64::from(1 <= mark);
        meeting += u64::from(2 <= mark);
        e = entries::next_entry(s, e);
    }
    ChosenCounts { selected, meeting }
}

// The tiles that the starts select, and which of them share a pixel with the window: a mark a tile, in directory order, and how many
// there are of both. The file's refusal under the release, or 22 where there are fewer marks than tiles; a refused call leaves the marks as they were.
pub fn chosen(
    s: &[u8],
    release: Release,
    starts: &[i32],
    any_scene: bool,
    left: i32,
    top: i32,
    width: u32,
    height: u32,
    marks: &mut [u8],
) -> Result<ChosenCounts, Refusal>
    ensures { ChosenAnswered (sought s.now release starts.now any_scene left top width height) marks.old marks.new result }
{
    judge::judge(s, release)?;
    if (marks.len() as u64) < judge::tile_count(s) {
        return Err(Refusal {
            fault: Fault::LentTooShort,
            place: 0,
        });
    }
    let w = window_of(left, top, width, height);
    Ok(mark_all(s, starts, any_scene, w, marks))
}
