// The records as numbers: one tile's, dimension's or attachment's, and all tiles' or dimensions' at once.
ghost use Rattle.std.specs.Prelude.{length};
ghost use Rattle.format.specs.Directory.{tile_count};
ghost use Rattle.format.specs.Rules.{tile_verdict, attachment_verdict};
ghost use Rattle.format.specs.Records.{dimension_verdict, tile_record, dimension_record, attachment_record};
ghost use Rattle.tables.specs.Tables.{tiles_verdict, TileArrays, dimension_total, dimensions_verdict, DimensionArrays};
ghost use Rattle.czi.specs.Lent.{lent_scan};
ghost use Rattle.czi.specs.Out.{TileOut, TableOut, DimensionOut, AttachmentOut};

use crate::verdict::{number_in, place_in, release_of, tell_count};
use format::Dimension;
use tables::numbers::{tile_numbers, tile_starts};

// ---- tiles

// The tile record. A refused call leaves numbers and starts as they were.
#[unsafe(no_mangle)]
pub extern "C" fn czi_tile(
    file: &[u8],
    release: u32,
    entry: u64,
    place: &mut u64,
    numbers: &mut [u64; 24],
    starts: &mut [i32; 4],
) -> u32
    ensures { TileOut (tile_verdict (lent_scan file.now release) entry) (tile_record (lent_scan file.now release) entry) numbers.old starts.old result place.new numbers.new starts.new }
{
    match parts::tile(file, release_of(release), entry) {
        Ok(t) => {
            *place = 0;
            *numbers = tile_numbers(t);
            *starts = tile_starts(t);
            0
        }
        Err(e) => {
            *place = e.place;
            e.fault.number()
        }
    }
}

// Every tile record, a row a tile in each array; tiles is how many. A refused call leaves both arrays as they were.
#[unsafe(no_mangle)]
pub extern "C" fn czi_tiles(
    file: &[u8],
    release: u32,
    numbers: &mut [u64],
    starts: &mut [i32],
    place: &mut u64,
    tiles: &mut u64,
) -> u32
    ensures table_out { TableOut (tiles_verdict (lent_scan file.now release) (length numbers.old) (length starts.old)) (tile_count file.now) result place.new tiles.new }
    ensures tile_arrays { TileArrays (lent_scan file.now release) numbers.old starts.old numbers.new starts.new }
{
    let rows = tables::tiles::tiles(file, release_of(release), numbers, starts);
    tell_count(rows, place, tiles)
}

// ---- dimensions

// What stands for a dimension where there is none.
const NO_DIMENSION: Dimension = Dimension {
    letter: 0,
    start: 0,
    size: 0,
    coordinate: 0.0,
    coordinate_bits: 0,
    stored: 0,
};

// The dimension record, its StartCoordinate by its 32 bits.
#[unsafe(no_mangle)]
pub extern "C" fn czi_dimension(
    file: &[u8],
    release: u32,
    entry: u64,
    dimension: u64,
    place: &mut u64,
    letter: &mut u64,
    start: &mut i32,
    size: &mut u64,
    coordinate_bits: &mut u32,
    stored: &mut u64,
) -> u32
    ensures { DimensionOut (dimension_verdict (lent_scan file.now release) entry dimension) (dimension_record (lent_scan file.now release) entry dimension) result place.new letter.new start.new size.new coordinate_bits.new stored.new }
{
    let answer = parts::dimension(file, release_of(release), entry, dimension);
    let d = answer.unwrap_or(NO_DIMENSION);
    *place = place_in(&answer);
    *letter = d.letter;
    *start = d.start;
    *size = d.size;
    *coordinate_bits = d.coordinate_bits;
    *stored = d.stored;
    number_in(&answer)
}

// Every dimension record, a row a dimension in each array, tile by tile; dimensions is how many. A refused call leaves both arrays as they were.
#[unsafe(no_mangle)]
pub extern "C" fn czi_dimensions(
    file: &[u8],
    release: u32,
    numbers: &mut [u64],
    starts: &mut [i32],
    place: &mut u64,
    dimensions: &mut u64,
) -> u32
    ensures table_out { TableOut (dimensions_verdict (lent_scan file.now release) (length numbers.old) (length starts.old)) (dimension_total (lent_scan file.now release)) result place.new dimensions.new }
    ensures dimension_arrays { DimensionArrays (lent_scan file.now release) numbers.old starts.old numbers.new starts.new }
{
    let rows = tables::dimensions::dimensions(file, release_of(release), numbers, starts);
    tell_count(rows, place, dimensions)
}

// ---- attachments

// The attachment record: the entry's GUID, file type and name as their bytes stand, and the stretch of its data. A refused call leaves the
// three arrays as they were.
#[unsafe(no_mangle)]
pub extern "C" fn czi_attachment(
    file: &[u8],
    release: u32,
    entry: u64,
    place: &mut u64,
    guid: &mut [u8; 16],
    file_type: &mut [u8; 8],
    name: &mut [u8; 80],
    start: &mut u64,
    length: &mut u64,
) -> u32
    ensures { AttachmentOut (attachment_verdict (lent_scan file.now release) entry) file.now (attachment_record (lent_scan file.now release) entry) guid.old file_type.old name.old guid.new file_type.new name.new result place.new start.new length.new }
{
    match parts::attachment(file, release_of(release), entry) {
        Ok(t) => {
            let e = t.place;
            *place = 0;
            *guid = attachments::attachment_guid(file, e);
            *file_type = attachments::attachment_type(file, e);
            *name = attachments::attachment_name(file, e);
            *start = t.data.start;
            *length = t.data.length;
            0
        }
        Err(e) => {
            *place = e.place;
            *start = 0;
            *length = 0;
            e.fault.number()
        }
    }
}
