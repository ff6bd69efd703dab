// The tile of an entry as a composer sees it: its rank, its rectangle, and one turn of it.
// The entry stands at e of the slice d, its sub-block at q of the slice s.
#![tactic(auto)]

ghost use Rattle.std.specs.Prelude.{◌≡◌, ◌+◌, ◌<◌, ◌^◌, true};
ghost use Rattle.format.specs.Entry.{pixel_type, pixel_bytes};
ghost use Rattle.subblocks.specs.Judged.{Listed, Judged};
ghost use Rattle.tiles.specs.FileTile.{rank_of, rectangle, meets};
ghost use Rattle.tiles.specs.Painted.{MaskLent, LayerRoom, TileLent, PaintRoom, Painted};

use format::Release;
use paint::Turn;
use plane::Rect;
use turns::{LentTile, Mask};

// The rank of the tile of entry number k: by M, and at a tie by the entry's number.
pub fn rank_of(d: &[u8], k: u64, e: u64) -> u64
    requires { Listed d.now e × (k < 4096) }
    ensures { (result ≡ rank_of d.now k e) × (result < 2 ^ 46) }
{
    if entries::holds_letter(d, e, 77) {
        let m = entries::letter_place(d, e, 77);
        (entries::biased_start(d, m) + 1) * 4096 + k
    } else {
        k
    }
}

// The tile's rectangle.
pub fn rectangle_of(d: &[u8], e: u64) -> Rect
    requires { Listed d.now e }
    ensures { result ≡ rectangle d.now e }
{
    let x = entries::letter_place(d, e, 88);
    let left = entries::biased_start(d, x) as usize;
    let width = entries::size_at(d, x) as usize;
    let y = entries::letter_place(d, e, 89);
    let top = entries::biased_start(d, y) as usize;
    let height = entries::size_at(d, y) as usize;
    Rect {
        left,
        top,
        width,
        height,
    }
}

// Whether the rectangle a and the window w share a pixel.
#[tactic(auto, unfolding(crate::specs::FileTile::meets))]
pub fn meets_window(a: Rect, w: Rect) -> bool
    requires { (a.left + a.width < 2 ^ 64) × (a.top + a.height < 2 ^ 64) × (w.left + w.width < 2 ^ 64) × (w.top + w.height < 2 ^ 64) }
    ensures { result ≡ meets a w }
{
    w.left < a.left + a.width
        && a.left < w.left + w.width
        && w.top < a.top + a.height
        && a.top < w.top + w.height
}

// The tile's bytes a pixel.
fn bytes_of(d: &[u8], e: u64) -> usize
    requires { Listed d.now e }
    ensures { result ≡ pixel_bytes (pixel_type d.now e) }
{
    entries::pixel_bytes(entries::pixel_type(d, e)) as usize
}

// The tile's mask as it is lent: none where masks are off.
fn lent_mask<'a>(
    d: &[u8],
    e: u64,
    s: &'a [u8],
    q: u64,
    release: Release,
    on: bool,
) -> Option<Mask<'a>>
    requires { on ≡ true → Judged d.now e s.now q release }
    ensures { MaskLent d.now e s.now q release on result }
{
    if !on {
        return None;
    }
    let mask = subblocks::mask_of(d, e, s, q, release)?;
    let from = (mask.place + 36) as usize;
    Some(Mask {
        width: mask.shape.width as usize,
        height: mask.shape.height as usize,
        stride: mask.shape.stride as usize,
        lines: &s[from..],
    })
}

// The tile as it is lent, with the pixels of its layer l.
fn lent_tile<'a>(
    d: &[u8],
    e: u64,
    s: &'a [u8],
    q: u64,
    l: u64,
    release: Release,
    on: bool,
) -> LentTile<'a>
    requires { LayerRoom d.now e s.now q l release on }
    ensures { TileLent d.now e s.now q l release on result }
{
    let from = subblocks::layer_pixels_place(d, e, s, q, l) as usize;
    LentTile {
        place: rectangle_of(d, e),
        bytes: bytes_of(d, e),
        pixels: &s[from..],
        mask: lent_mask(d, e, s, q, release, on),
    }
}

// One turn of layer l of the tile in the window w, under a release, masks on or off. The result is what it adds to the store count.
pub fn paint_entry(
    target: &mut [u8],
    map: &mut [u8],
    d: &[u8],
    e: u64,
    s: &[u8],
    q: u64,
    l: u64,
    release: Release,
    w: Rect,
    on: bool,
    turn: Turn,
) -> usize
    requires { PaintRoom target.old map.old d.now e s.now q l release on w }
    ensures { Painted target.old map.old d.now e s.now q l release on w turn target.new map.new result }
{
    let tile = lent_tile(d, e, s, q, l, release, on);
    turns::paint_tile(target, map, w, &tile, turn)
}
