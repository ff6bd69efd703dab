// Records as numbers, in the order of include/czi.h.
ghost use Rattle.std.specs.Prelude.{◌≡◌};
ghost use Rattle.tables.specs.Numbers.{tile_numbers, tile_starts, dimension_numbers, dimension_starts};

use format::{Dimension, Layers, MaskShape, Tile, TileMask};

// What stands for the mask of a tile that has none.
const NO_MASK: TileMask = TileMask {
    place: 0,
    shape: MaskShape {
        width: 0,
        height: 0,
        stride: 0,
    },
};

// What stands for the layers of a tile that has none.
const NO_LAYERS: Layers = Layers {
    letter: 0,
    start: 0,
    size: 0,
};

// ---- the tile record

// The record's numbers.
#[tactic(auto, unfolding(crate::specs::Numbers::tile_numbers))]
pub fn tile_numbers(t: Tile) -> [u64; 24]
    ensures { result ≡ tile_numbers t }
{
    let mask = t.mask.unwrap_or(NO_MASK);
    let layers = t.layers.unwrap_or(NO_LAYERS);
    [
        t.entry,
        t.place,
        t.pixel_type,
        t.position,
        t.pyramid,
        t.dimensions,
        t.x.size,
        t.x.stored,
        t.y.size,
        t.y.stored,
        u64::from(t.m.is_some()),
        t.metadata.start,
        t.metadata.length,
        t.pixels.start,
        t.pixels.length,
        t.attachment.start,
        t.attachment.length,
        u64::from(t.mask.is_some()),
        mask.place,
        mask.shape.width,
        mask.shape.height,
        mask.shape.stride,
        layers.letter,
        layers.size,
    ]
}

// Its signed numbers: where X, Y, M and the layers start.
pub fn tile_starts(t: Tile) -> [i32; 4]
    ensures { result ≡ tile_starts t }
{
    let m = t.m.unwrap_or(0);
    let layers = t.layers.unwrap_or(NO_LAYERS);
    [t.x.start, t.y.start, m, layers.start]
}

// ---- the dimension record of a dimension of entry n

// Its numbers: StartCoordinate by its 32 bits.
#[tactic(auto, unfolding(crate::specs::Numbers::dimension_numbers))]
pub fn dimension_numbers(n: u64, d: Dimension) -> [u64; 5]
    ensures { result ≡ dimension_numbers n d }
{
    [n, d.letter, d.size, u64::from(d.coordinate_bits), d.stored]
}

// Its signed number: where it starts.
pub fn dimension_starts(d: Dimension) -> [i32; 1]
    ensures { result ≡ dimension_starts d }
{
    [d.start]
}
