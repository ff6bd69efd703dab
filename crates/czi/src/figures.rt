// The summary as numbers, and the listing's text.
ghost use Rattle.format.specs.Rules.{verdict};
ghost use Rattle.listing.specs.Summary.{summary_of};
ghost use Rattle.listing.specs.Listing.{listing_of};
ghost use Rattle.czi.specs.Lent.{release_of, lent_scan};
ghost use Rattle.czi.specs.Out.{SummaryOut, TextOut};

use crate::verdict::{number_in, place_in, release_of};
use listing::{Summary, TileBox};

// What stands for the summary where a file is refused, and for the box where there is none.
const NO_SUMMARY: Summary = Summary {
    bytes: 0,
    segments: 0,
    tiles: 0,
    attachments: 0,
    bounds: None,
};

const NO_BOX: TileBox = TileBox {
    left: 0,
    top: 0,
    right: 0,
    bottom: 0,
};

// The figures of a file of any size.
#[unsafe(no_mangle)]
pub extern "C" fn czi_summary(
    file: &[u8],
    release: u32,
    place: &mut u64,
    bytes: &mut u64,
    segments: &mut u64,
    tiles: &mut u64,
    attachments: &mut u64,
    has_box: &mut u64,
    left: &mut i32,
    top: &mut i32,
    right: &mut i32,
    bottom: &mut i32,
) -> u32
    ensures { SummaryOut (verdict (lent_scan file.now release)) (summary_of file.now) result place.new bytes.new segments.new tiles.new attachments.new has_box.new left.new top.new right.new bottom.new }
{
    let answer = listing::summarize(file, release_of(release));
    let s = answer.unwrap_or(NO_SUMMARY);
    let b = s.bounds.unwrap_or(NO_BOX);
    *place = place_in(&answer);
    *bytes = s.bytes;
    *segments = s.segments;
    *tiles = s.tiles;
    *attachments = s.attachments;
    *has_box = u64::from(s.bounds.is_some());
    *left = b.left;
    *top = b.top;
    *right = b.right;
    *bottom = b.bottom;
    number_in(&answer)
}

// ---- the listing

// The listing's text and its length. A refusal, 30 for what is over 65,536 bytes too, is in the text.
#[unsafe(no_mangle)]
pub extern "C" fn czi_list(file: &[u8], release: u32, text: &mut [u8; 192]) -> u64
    ensures { TextOut (listing_of file.now (release_of release)) result text.new }
{
    let t = listing::list(file, release_of(release));
    let bytes = t.to_array();
    *text = bytes;
    t.as_bytes().len() as u64
}
