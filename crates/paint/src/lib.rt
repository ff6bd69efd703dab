// One row's part of a turn: by runs of the mask's bits within runs of map bits, and where runs are short, by the pixel.
#![tactic(auto)]

ghost use Rattle.std.specs.Prelude.{◌≡◌, ◌+◌, ◌*◌, ◌<◌, ◌≤◌, ◌^◌, length, Some, IfSome};
ghost use Rattle.paint.specs.declared.Turn.TheVariants.{Quick};
ghost use Rattle.paint.specs.RowPainting.{LineRoom, RowRoom, RowPainted, SpanRoom, SpanBytes, SpanPainted, SpanGiven, Stepped, Open, valid_behind, valid_at, row_gives};

// The two kinds of turn: the plain one gives a tile's valid pixels, the quick one those of them that are not yet covered.
#[derive(Clone, Copy)]
pub enum Turn {
    Plain,
    Quick,
}

// A row's line of the tile's mask: its bits, how many columns it has, and which of them is the row's first pixel's.
#[derive(Clone, Copy)]
pub struct MaskLine<'a> {
    pub bits: &'a [u8],
    pub columns: usize,
    pub column: usize,
}

// What of a row's part of a turn does not change along the row: the number of its first pixel's map bit, the bytes of a pixel, its pixels, the
// mask's line where the tile is masked, and the kind of turn.
#[derive(Clone, Copy)]
pub struct Row<'a> {
    pub first: usize,
    pub bytes: usize,
    pub pixels: &'a [u8],
    pub mask: Option<MaskLine<'a>>,
    pub turn: Turn,
}

// The pixel behind a step's last, and how many pixels the step gave.
#[derive(Clone, Copy)]
pub struct Step {
    pub next: usize,
    pub given: usize,
}

impl MaskLine<'_> {
    // Whether pixel i of the row is valid: the line has its column, and the column's bit is one.
    fn valid_at(&self, i: usize) -> bool
        requires { LineRoom self.now i }
        ensures { result ≡ valid_behind (Some self.now) i }
    {
        let x = self.column + i;
        x < self.columns && bits::bit_at(self.bits, x)
    }

    // The end of the pixels from i up to j that have a column in the line.
    fn columns_end(&self, i: usize, j: usize) -> usize
        requires { i ≤ j }
        ensures { (i ≤ result) × (result ≤ j) × (i < result → self.now.column + result ≤ self.now.columns) × (result < j → self.now.columns ≤ self.now.column + result) }
    {
        self.columns.saturating_sub(self.column).clamp(i, j)
    }
}

// The end of the pixels from i up to j that are painted one by one where the run from bit p on is short: about two bytes' bits, to a byte's end.
// Any end past i would do.
fn short_end(i: usize, j: usize, p: usize) -> usize
    requires { i < j }
    ensures { (i < result) × (result ≤ j) }
{
    i + (j - i).min(16 - p % 8)
}

impl Row<'_> {
    // ---- by the pixel

    // Whether pixel i of the row is valid; with no mask it is.
    fn valid_at(&self, i: usize) -> bool
        requires { IfSome self.now.mask (λ k. LineRoom k i) }
        ensures { result ≡ valid_at self.now i }
    {
        match self.mask {
            Some(mask) => mask.valid_at(i),
            None => true,
        }
    }

    // Whether a turn gives pixel i of the row.
    fn is_given(&self, map: &[u8], i: usize) -> bool
        requires { (self.now.first + i < 8 * length map.now) × (self.now.first + i < 2 ^ 64) × IfSome self.now.mask (λ k. LineRoom k i) }
        ensures { result ≡ row_gives map.now self.now i }
    {
        self.valid_at(i)
            && match self.turn {
                Turn::Plain => true,
                Turn::Quick => !bits::bit_at(map, self.first + i),
            }
    }

    // Pixel i of the row, whose first byte is number a. The result is how many pixels it gives, one or none.
    fn paint_pixel(&self, dst: &mut [u8], map: &mut [u8], i: usize, a: usize) -> usize
        requires { RowRoom dst.old map.old self.now (i + 1) × (a ≡ i * self.now.bytes) }
        ensures { SpanPainted dst.old map.old self.now i (i + 1) dst.new map.new result }
    {
        if self.is_given(map, i) {
            copies::copy_few(dst, self.pixels, a, a + self.bytes);
            bits::set_bit(map, self.first + i);
            1
        } else {
            0
        }
    }

    // The pixels from i up to j one by one. The row is a copy, which no write to the bytes can change, and the first byte is counted along: with the
    // product at each pixel random bits take 11 % longer (1 byte a pixel, 4,096 x 4,096: 171 ms against 153).
    fn paint_pixels(&self, dst: &mut [u8], map: &mut [u8], i: usize, j: usize) -> usize
        requires { SpanRoom dst.old map.old self.now i j }
        ensures { SpanPainted dst.old map.old self.now i j dst.new map.new result }
    {
        let row = *self;
        let mut given = 0;
        let mut a = i * row.bytes;
        for k in i..j {
            given += row.paint_pixel(dst, map, k, a);
            a += row.bytes;
        }
        given
    }

    // ---- by runs

    // The pixels from i up to j, all of them given.
    fn give_span(&self, dst: &mut [u8], map: &mut [u8], i: usize, j: usize)
        requires { SpanBytes dst.old map.old self.now i j }
        ensures { SpanGiven dst.old map.old self.now i j dst.new map.new }
    {
        copies::copy_range(dst, self.pixels, i * self.bytes, j * self.bytes);
        bits::set_range(map, self.first + i, self.first + j);
    }

    // A step along open pixels from i up to j of a masked row, all of which have a column in the mask: a run of valid ones, of others, or a few by
    // the pixel.
    fn step_mask(&self, mask: MaskLine, dst: &mut [u8], map: &mut [u8], i: usize, j: usize) -> Step
        requires { (i < j) × SpanRoom dst.old map.old self.now i j × (self.now.mask ≡ Some mask) × Open map.old self.now i j × (mask.column + j ≤ mask.columns) }
        ensures { Stepped dst.old map.old self.now i j dst.new map.new result.next result.given }
    {
        let x = mask.column;
        let at = x + i;
        let end = x + j;
        let valid = runs::run_end(mask.bits, at, end, true);
        if 8 <= valid - at {
            let next = valid - x;
            self.give_span(dst, map, i, next);
            return Step {
                next,
                given: next - i,
            };
        }
        let other = runs::run_end(mask.bits, at, end, false);
        if 8 <= other - at {
            return Step {
                next: other - x,
                given: 0,
            };
        }
        let next = short_end(i, j, at);
        let given = self.paint_pixels(dst, map, i, next);
        Step { next, given }
    }

    // Open pixels from i up to j of a masked row. The steps are of any length, and each is of the pixels that the last one left: no range, and no
    // iterator, has them.
    fn paint_masked(
        &self,
        mask: MaskLine,
        dst: &mut [u8],
        map: &mut [u8],
        i: usize,
        j: usize,
    ) -> usize
        requires { SpanRoom dst.old map.old self.now i j × (self.now.mask ≡ Some mask) × Open map.old self.now i j }
        ensures { SpanPainted dst.old map.old self.now i j dst.new map.new result }
    {
        let end = mask.columns_end(i, j);
        let mut given = 0;
        let mut k = i;
        while k < end {
            let s = self.step_mask(mask, dst, map, k, end);
            given += s.given;
            k = s.next;
        }
        given
    }

    // Open pixels from i up to j: all of them, or behind a mask those that are valid.
    fn paint_open(&self, dst: &mut [u8], map: &mut [u8], i: usize, j: usize) -> usize
        requires { SpanRoom dst.old map.old self.now i j × Open map.old self.now i j }
        ensures { SpanPainted dst.old map.old self.now i j dst.new map.new result }
    {
        match self.mask {
            Some(mask) => self.paint_masked(mask, dst, map, i, j),
            None => {
                self.give_span(dst, map, i, j);
                j - i
            }
        }
    }

    // A quick turn's step along the pixels from i up to j: a run of uncovered ones, of covered ones, or a few by the pixel.
    fn step_map(&self, dst: &mut [u8], map: &mut [u8], i: usize, j: usize) -> Step
        requires { (i < j) × SpanRoom dst.old map.old self.now i j × (self.now.turn ≡ Quick) }
        ensures { Stepped dst.old map.old self.now i j dst.new map.new result.next result.given }
    {
        let first = self.first;
        let at = first + i;
        let end = first + j;
        let uncovered = runs::run_end(map, at, end, false);
        if 8 <= uncovered - at {
            let next = uncovered - first;
            let given = self.paint_open(dst, map, i, next);
            return Step { next, given };
        }
        let covered = runs::run_end(map, at, end, true);
        if 8 <= covered - at {
            return Step {
                next: covered - first,
                given: 0,
            };
        }
        let next = short_end(i, j, at);
        let given = self.paint_pixels(dst, map, i, next);
        Step { next, given }
    }

    // A quick turn's row, in steps of any length.
    fn paint_uncovered(&self, dst: &mut [u8], map: &mut [u8], n: usize) -> usize
        requires { RowRoom dst.old map.old self.now n × (self.now.turn ≡ Quick) }
        ensures { SpanPainted dst.old map.old self.now 0 n dst.new map.new result }
    {
        let mut given = 0;
        let mut k = 0;
        while k < n {
            let s = self.step_map(dst, map, k, n);
            given += s.given;
            k = s.next;
        }
        given
    }
}

// One row's part of a turn: dst is the row's stretch of the target, of n pixels. The result is how many pixels it gives.
pub fn paint_row(dst: &mut [u8], map: &mut [u8], row: &Row, n: usize) -> usize
    requires { RowRoom dst.old map.old row.now n }
    ensures { RowPainted dst.old map.old row.now n dst.new map.new result }
{
    match row.turn {
        Turn::Quick => row.paint_uncovered(dst, map, n),
        Turn::Plain => row.paint_open(dst, map, 0, n),
    }
}
