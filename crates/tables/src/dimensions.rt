// Every dimension record of a file.
ghost use Rattle.std.specs.Prelude.{◌≡◌, ◌+◌, ◌≤◌, ◌<◌, length};
ghost use Rattle.format.specs.Scan.{scan_of};
ghost use Rattle.format.specs.Rules.{AcceptedFile};
ghost use Rattle.format.specs.Entry.{dimension_count};
ghost use Rattle.format.specs.Directory.{tile_count};
ghost use Rattle.tables.specs.Tables.{dimensions_below, dimension_total, dimensions_verdict, DimensionTable, DimensionArrays, TableAnswered};
ghost use Rattle.tables.specs.Steps.{TileAt, RowRoom, dimension_of, DimensionPut, DimensionsPut};

use crate::numbers::{dimension_numbers, dimension_starts};
use crate::rows::put_row;
use crate::tiles::too_short;
use format::{Fault, Refusal, Release};

// How many dimensions the n tiles of an accepted file have.
fn dimension_total(s: &[u8], n: u64) -> u64
    requires { AcceptedFile s.now × (n ≡ tile_count s.now) }
    ensures { (result ≡ dimensions_below s.now n) × (result ≤ 65536) }
{
    let mut e = directory::first_entry(s);
    let mut total: u64 = 0;
    for _ in 0..n {
        total += entries::dimension_count(s, e);
        e = entries::next_entry(s, e);
    }
    total
}

// Puts the record of dimension j of tile k, whose entry stands at e, into row r.
fn put_dimension(s: &[u8], k: u64, e: u64, j: u64, r: u64, numbers: &mut [u64], starts: &mut [i32])
    requires accepted_file { AcceptedFile s.now × TileAt s.now k e × (j < dimension_count s.now e) × (r < 65536) }
    requires row_room { RowRoom 5 1 (r + 1) numbers.old starts.old }
    ensures { DimensionPut s.now k j r numbers.old starts.old numbers.new starts.new }
{
    let d = entries::dimension_at(s, entries::dimension_place(e, j));
    put_row(numbers, (5 * r) as usize, &dimension_numbers(k, d));
    put_row(starts, r as usize, &dimension_starts(d));
}

// Puts the records of the c dimensions of tile k, whose entry stands at e, into the rows from r on.
fn put_dimensions_of(
    s: &[u8],
    k: u64,
    e: u64,
    c: u64,
    r: u64,
    numbers: &mut [u64],
    starts: &mut [i32],
)
    requires accepted_file { AcceptedFile s.now × TileAt s.now k e × (c ≡ dimension_count s.now e) × (r + c ≤ 65536) }
    requires row_room { RowRoom 5 1 (r + c) numbers.old starts.old }
    ensures { DimensionsPut s.now k c r numbers.old starts.old numbers.new starts.new }
{
    for j in 0..c {
        put_dimension(s, k, e, j, r + j, numbers, starts);
    }
}

// Puts the records of all dimensions of the n tiles of an accepted file.
fn put_dimensions(s: &[u8], n: u64, numbers: &mut [u64], starts: &mut [i32])
    requires accepted_file { AcceptedFile s.now × (n ≡ tile_count s.now) }
    requires row_room { RowRoom 5 1 (dimensions_below s.now n) numbers.old starts.old }
    ensures { DimensionTable s.now (dimension_of s.now) n numbers.old starts.old numbers.new starts.new }
{
    let mut e = directory::first_entry(s);
    let mut r: u64 = 0;
    for k in 0..n {
        let c = entries::dimension_count(s, e);
        put_dimensions_of(s, k, e, c, r, numbers, starts);
        r += c;
        e = entries::next_entry(s, e);
    }
}

// Every dimension record under a release: 5 numbers and a signed one a dimension, tile by tile in directory order; answers how many there are.
// Refused, 22 where an array is too short, it changes neither.
pub fn dimensions(
    s: &[u8],
    release: Release,
    numbers: &mut [u64],
    starts: &mut [i32],
) -> Result<u64, Refusal>
    ensures table_answered { TableAnswered (dimensions_verdict (scan_of s.now release) (length numbers.old) (length starts.old)) (dimension_total (scan_of s.now release)) result }
    ensures dimension_arrays { DimensionArrays (scan_of s.now release) numbers.old starts.old numbers.new starts.new }
{
    judge::judge(s, release)?;
    let n = judge::tile_count(s);
    let total = dimension_total(s, n);
    if too_short(total, 5, 1, numbers.len(), starts.len()) {
        return Err(Refusal {
            fault: Fault::LentTooShort,
            place: 0,
        });
    }
    put_dimensions(s, n, numbers, starts);
    Ok(total)
}
