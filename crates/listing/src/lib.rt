// Lists a file: the figures of an accepted one, the refusal of any other, as a summary and as text.
#![tactic(auto)]

ghost use Rattle.std.specs.Prelude.{◌≡◌, false, ◌∷◌, ◌++◌, ◌+◌, ◌≤◌, length};
ghost use Rattle.format.specs.Scan.{scan_of};
ghost use Rattle.format.specs.Bytes.{signed32, biased};
ghost use Rattle.format.specs.Checks.{number};
ghost use Rattle.format.specs.Segments.{walked};
ghost use Rattle.format.specs.Entry.{next_entry, dimensions_bad};
ghost use Rattle.format.specs.Directory.{tile_count};
ghost use Rattle.format.specs.Rules.{verdict, AcceptedFile};
ghost use Rattle.text.specs.Text.{signed_text, line};
ghost use Rattle.listing.specs.Summary.{tile_box, summary_of, SummaryAnswered};
ghost use Rattle.listing.specs.Listing.{name_box, refusal_text, listing_of};
ghost use Rattle.listing.specs.Figures.{tile_corners, joined, with_tile, corners_below, bounds_by, box_by, text_by};

use format::{Fault, Refusal, Release};
use text::Text;

// A box over tiles, right and bottom exclusive.
#[derive(Clone, Copy)]
pub struct TileBox {
    pub left: i32,
    pub top: i32,
    pub right: i32,
    pub bottom: i32,
}

// The figures of an accepted file. The box is over the tiles that are not pyramid tiles, if there are any.
#[derive(Clone, Copy)]
pub struct Summary {
    pub bytes: u64,
    pub segments: u64,
    pub tiles: u64,
    pub attachments: u64,
    pub bounds: Option<TileBox>,
}

// The corners of a box over tiles, plus 2^31 each, as the definitions compare them.
#[derive(Clone, Copy)]
pub struct Corners {
    pub left: u32,
    pub top: u32,
    pub right: u32,
    pub bottom: u32,
}

// ---- the box

// The signed number of a coordinate that is kept plus 2^31.
fn unshifted(x: u32) -> i32
    ensures { result ≡ signed32 (biased x) }
{
    fields::signed_of(fields::biased_of(u64::from(x)))
}

impl Corners {
    // The corners of the least box that holds both.
    fn joined(self, other: Corners) -> Corners
        ensures { result ≡ joined self other }
    {
        Corners {
            left: self.left.min(other.left),
            top: self.top.min(other.top),
            right: self.right.max(other.right),
            bottom: self.bottom.max(other.bottom),
        }
    }

    // The box with these corners.
    fn tile_box(self) -> TileBox
        ensures { result ≡ tile_box self.left self.top self.right self.bottom }
    {
        TileBox {
            left: unshifted(self.left),
            top: unshifted(self.top),
            right: unshifted(self.right),
            bottom: unshifted(self.bottom),
        }
    }
}

// The corners of the tile of the entry at e.
fn tile_corners(s: &[u8], e: u64) -> Corners
    requires { (next_entry s.now e ≤ length s.now) × (dimensions_bad s.now e ≡ false) }
    ensures { result ≡ tile_corners s.now e }
{
    let x = entries::letter_place(s, e, b'X' as u64);
    let y = entries::letter_place(s, e, b'Y' as u64);
    let left = entries::biased_start(s, x);
    let top = entries::biased_start(s, y);
    let right = left + entries::size_at(s, x);
    let bottom = top + entries::size_at(s, y);
    Corners {
        left: left as u32,
        top: top as u32,
        right: right as u32,
        bottom: bottom as u32,
    }
}

// The box with the tile of the entry at e in it, unless that is a pyramid tile.
fn with_tile(corners: Option<Corners>, s: &[u8], e: u64) -> Option<Corners>
    requires { (next_entry s.now e ≤ length s.now) × (dimensions_bad s.now e ≡ false) }
    ensures { result ≡ with_tile s.now e corners }
{
    if entries::is_pyramid(s, e) {
        return corners;
    }
    let tile = tile_corners(s, e);
    match corners {
        Some(c) => Some(tile.joined(c)),
        None => Some(tile),
    }
}

// The box over the first n entries.
fn corners_of(s: &[u8], n: u64) -> Option<Corners>
    requires { AcceptedFile s.now × (n ≤ tile_count s.now) }
    ensures { result ≡ corners_below s.now n }
{
    let mut corners = None;
    let mut e = directory::first_entry(s);
    for _ in 0..n {
        corners = with_tile(corners, s, e);
        e = entries::next_entry(s, e);
    }
    corners
}

// ---- the figures

// How many segments there are.
fn segment_count(s: &[u8]) -> u64
    requires { AcceptedFile s.now }
    ensures { result ≡ length (walked s.now) }
{
    segments::judge_segments(s).unwrap_or(0) as u64
}

// The box as signed numbers.
fn bounds_of(corners: Option<Corners>) -> Option<TileBox>
    ensures { result ≡ bounds_by corners }
{
    corners.map(|c| c.tile_box())
}

// The figures of an accepted file.
fn summary_of(s: &[u8]) -> Summary
    requires { AcceptedFile s.now }
    ensures { result ≡ summary_of s.now }
{
    let bytes = s.len() as u64;
    let segments = segment_count(s);
    let tiles = judge::tile_count(s);
    let attachments = judge::attachment_count(s);
    let bounds = bounds_of(corners_of(s, tiles));
    Summary {
        bytes,
        segments,
        tiles,
        attachments,
        bounds,
    }
}

// The summary of a file of any size, or its refusal, under a release.
pub fn summarize(s: &[u8], release: Release) -> Result<Summary, Refusal>
    ensures { SummaryAnswered (verdict (scan_of s.now release)) (summary_of s.now) result }
{
    judge::judge(s, release)?;
    Ok(summary_of(s))
}

// ---- the text

// Puts a comma and a coordinate.
fn put_coordinate(text: &mut Text, x: i32)
    requires { length text.old + 22 ≤ 192 }
    ensures said { text.new ≡ text.old ++ 44 ∷ signed_text x }
    ensures most { length text.new ≤ length text.old + 12 }
{
    text.push(b',');
    text.put_signed(x);
}

// Puts the corners of a box, or that there is none.
#[tactic(auto, using(std::proofs::Common::append_assoc), unfolding(crate::specs::Listing::word_none))]
fn put_corners(text: &mut Text, bounds: Option<TileBox>)
    requires { length text.old + 57 ≤ 192 }
    ensures said { text.new ≡ text.old ++ box_by bounds }
    ensures most { length text.new ≤ length text.old + 47 }
{
    match bounds {
        Some(bounds) => {
            text.put_signed(bounds.left);
            put_coordinate(text, bounds.top);
            put_coordinate(text, bounds.right);
            put_coordinate(text, bounds.bottom);
        }
        None => text.put(b"none"),
    }
}

// Puts the line of the box.
#[tactic(auto, using(std::proofs::Common::append_assoc), unfolding(crate::specs::Listing::name_box, text::specs::Text::line))]
fn put_box(text: &mut Text, bounds: Option<TileBox>)
    requires { length text.old + 61 ≤ 192 }
    ensures { text.new ≡ text.old ++ line name_box (box_by bounds) }
{
    text.put(b"box=");
    put_corners(text, bounds);
    text.push(b'\n');
}

// The lines of an accepted file.
#[tactic(auto, using(std::proofs::Common::append_assoc), unfolding(crate::specs::Figures::text_by, crate::specs::Listing::name_bytes, crate::specs::Listing::name_segments, crate::specs::Listing::name_tiles, crate::specs::Listing::name_attachments))]
fn summary_text(summary: Summary) -> Text
    ensures { result ≡ text_by summary }
{
    let mut text = Text::new();
    text.put_line(b"bytes=", summary.bytes);
    text.put_line(b"segments=", summary.segments);
    text.put_line(b"tiles=", summary.tiles);
    text.put_line(b"attachments=", summary.attachments);
    put_box(&mut text, summary.bounds);
    text
}

// The lines of a refusal.
#[tactic(auto, using(std::proofs::Common::append_assoc), unfolding(crate::specs::Listing::refusal_text, crate::specs::Listing::name_refused, crate::specs::Listing::name_place))]
fn refusal_text(refusal: Refusal) -> Text
    ensures { result ≡ refusal_text (number refusal.fault) refusal.place }
{
    let mut text = Text::new();
    text.put_line(b"refused=", u64::from(refusal.fault.number()));
    text.put_line(b"place=", refusal.place);
    text
}

// The listing of a file of at most 65,536 bytes, under a release; what is longer is refused before all.
pub fn list(s: &[u8], release: Release) -> Text
    ensures { result ≡ listing_of s.now release }
{
    if 65536 < s.len() {
        return refusal_text(Refusal {
            fault: Fault::TooLongToList,
            place: 0,
        });
    }
    match judge::judge(s, release) {
        Err(refusal) => refusal_text(refusal),
        Ok(()) => summary_text(summary_of(s)),
    }
}
