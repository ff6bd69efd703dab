// Every tile record of a file.
ghost use Rattle.std.specs.Prelude.{◌≡◌, ◌+◌, ◌≤◌, length};
ghost use Rattle.format.specs.Scan.{scan_of};
ghost use Rattle.format.specs.Rules.{verdict};
ghost use Rattle.format.specs.Directory.{tile_count};
ghost use Rattle.format.specs.Checks.{Accepted};
ghost use Rattle.tables.specs.Tables.{short, tiles_verdict, TileTable, TileArrays, TableAnswered};
ghost use Rattle.tables.specs.Steps.{TileAt, RowRoom, TilePut};

use crate::numbers::{tile_numbers, tile_starts};
use crate::rows::put_row;
use format::{Fault, Refusal, Release};

// Whether arrays of these lengths are too short for n rows of w numbers and v signed ones.
#[tactic(auto, using(format::proofs::Flags::flags), unfolding(crate::specs::Tables::short))]
pub fn too_short(n: u64, w: u64, v: u64, numbers: usize, starts: usize) -> bool
    requires { (n ≤ 65536) × (w ≤ 24) × (v ≤ 24) }
    ensures { result ≡ short n w v numbers starts }
{
    (numbers as u64) < w * n || (starts as u64) < v * n
}

// Puts the record of tile k, whose entry stands at e, into row k.
fn put_tile(s: &[u8], release: Release, k: u64, e: u64, numbers: &mut [u64], starts: &mut [i32])
    requires release_value { (verdict (scan_of s.now release) ≡ Accepted) × TileAt s.now k e }
    requires row_room { RowRoom 24 4 (k + 1) numbers.old starts.old }
    ensures { TilePut (scan_of s.now release) k numbers.old starts.old numbers.new starts.new }
{
    let q = entries::file_position(s, e);
    let t = subblocks::tile_at(k, s, e, s, q, release);
    put_row(numbers, (24 * k) as usize, &tile_numbers(t));
    put_row(starts, (4 * k) as usize, &tile_starts(t));
}

// Puts the records of the n tiles of an accepted file.
fn put_tiles(s: &[u8], release: Release, n: u64, numbers: &mut [u64], starts: &mut [i32])
    requires release_value { (verdict (scan_of s.now release) ≡ Accepted) × (n ≡ tile_count s.now) }
    requires row_room { RowRoom 24 4 n numbers.old starts.old }
    ensures { TileTable (scan_of s.now release) numbers.old starts.old numbers.new starts.new }
{
    let mut e = directory::first_entry(s);
    for k in 0..n {
        put_tile(s, release, k, e, numbers, starts);
        e = entries::next_entry(s, e);
    }
}

// Every tile record under a release: 24 numbers and 4 signed ones a tile, in directory order; answers how many tiles there are. Refused, 22 where an array is too short, it changes neither.
pub fn tiles(
    s: &[u8],
    release: Release,
    numbers: &mut [u64],
    starts: &mut [i32],
) -> Result<u64, Refusal>
    ensures table_answered { TableAnswered (tiles_verdict (scan_of s.now release) (length numbers.old) (length starts.old)) (tile_count s.now) result }
    ensures tile_arrays { TileArrays (scan_of s.now release) numbers.old starts.old numbers.new starts.new }
{
    judge::judge(s, release)?;
    let n = judge::tile_count(s);
    if too_short(n, 24, 4, numbers.len(), starts.len()) {
        return Err(Refusal {
            fault: Fault::LentTooShort,
            place: 0,
        });
    }
    put_tiles(s, release, n, numbers, starts);
    Ok(n)
}
