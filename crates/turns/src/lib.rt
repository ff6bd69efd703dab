// A tile's turn: the rows of the tile that meet the window, each painted into its own stretch of the target.
#![tactic(auto)]

ghost use Rattle.std.specs.Prelude.{◌≡◌, ◌+◌, ◌*◌, ◌<◌, ◌≤◌, ◌^◌};
ghost use Rattle.turns.specs.Turned.{Clipped, LineOf, TileWhole, RowOf, StretchRoom, StretchPainted, TurnRoom, Turned};

use paint::{MaskLine, Row, Turn};
use plane::Rect;

// A tile's mask: its columns, rows, and bytes a line, and its lines, one after the other.
#[derive(Clone, Copy)]
pub struct Mask<'a> {
    pub width: usize,
    pub height: usize,
    pub stride: usize,
    pub lines: &'a [u8],
}

// A tile as it is lent: its rectangle in the plane, the bytes of a pixel, its pixels row by row, and its mask if it has one.
#[derive(Clone, Copy)]
pub struct LentTile<'a> {
    pub place: Rect,
    pub bytes: usize,
    pub pixels: &'a [u8],
    pub mask: Option<Mask<'a>>,
}

// The part of the plane where a window and a tile meet; right and bottom are exclusive.
#[derive(Clone, Copy)]
pub struct Clip {
    pub left: usize,
    pub right: usize,
    pub top: usize,
    pub bottom: usize,
}

// Where the window w and the tile's rectangle a meet.
pub fn meeting(w: Rect, a: Rect) -> Clip
    requires { (w.left + w.width < 2 ^ 64) × (w.top + w.height < 2 ^ 64) × (a.left + a.width < 2 ^ 64) × (a.top + a.height < 2 ^ 64) }
    ensures { Clipped w a result }
{
    Clip {
        left: w.left.max(a.left),
        right: (w.left + w.width).min(a.left + a.width),
        top: w.top.max(a.top),
        bottom: (w.top + w.height).min(a.top + a.height),
    }
}

impl<'a> Mask<'a> {
    // The line of a tile's row, whose first pixel is in the column given: one with no columns where the mask has no such row,
    // and with no bytes where the lines end before it.
    pub fn line(&self, row: usize, column: usize) -> MaskLine<'a>
        requires { self.now.height * self.now.stride < 2 ^ 64 }
        ensures { LineOf self.now row column result }
    {
        if row < self.height {
            MaskLine {
                bits: self.lines.get(row * self.stride..).unwrap_or(b""),
                columns: self.width,
                column,
            }
        } else {
            MaskLine {
                bits: b"",
                columns: 0,
                column,
            }
        }
    }
}

impl<'a> LentTile<'a> {
    // The tile's row number `row` from its column number `column` on, whose pixel there has map bit number `first`.
    fn row(&self, row: usize, column: usize, first: usize, turn: Turn) -> Row<'a>
        requires { TileWhole self.now × (1 ≤ self.now.bytes) × (row < self.now.place.height) × (column < self.now.place.width) }
        ensures { RowOf self.now row column first turn result }
    {
        let from = (row * self.place.width + column) * self.bytes;
        Row {
            first,
            bytes: self.bytes,
            pixels: &self.pixels[from..],
            mask: self.mask.map(|mask| mask.line(row, column)),
            turn,
        }
    }
}

// A row's part of a turn: the row's stretch, which starts in the middle of the lent target, is lent on to the row painter.
pub fn paint_stretch(target: &mut [u8], map: &mut [u8], row: &Row, n: usize) -> usize
    requires { StretchRoom target.old map.old row.now n }
    ensures { StretchPainted target.old map.old row.now n target.new map.new result }
{
    let a = row.first * row.bytes;
    let e = a + n * row.bytes;
    paint::paint_row(&mut target[a..e], map, row, n)
}

// A tile's turn in the window w. The result is what it adds to the store count.
pub fn paint_tile(target: &mut [u8], map: &mut [u8], w: Rect, tile: &LentTile, turn: Turn) -> usize
    requires { TurnRoom target.old map.old w tile.now }
    ensures { Turned target.old map.old w tile.now turn target.new map.new result }
{
    let a = tile.place;
    let c = meeting(w, a);
    if c.right <= c.left || c.bottom <= c.top {
        return 0;
    }
    let n = c.right - c.left;
    let mut given = 0;
    for y in c.top - w.top..c.bottom - w.top {
        let first = y * w.width + (c.left - w.left);
        let row = tile.row(y + w.top - a.top, c.left - a.left, first, turn);
        given += paint_stretch(target, map, &row, n);
    }
    given
}
