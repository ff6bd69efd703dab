// Judges the sub-block directory: its own refusal 10, and each entry with its sub-block in order. Of a sub-block, the entry lies in the slice d and the
// sub-block in the slice s; which file of a scan that is, the function that judges the entry's body says.
#![tactic(auto)]

ghost use Rattle.std.specs.Prelude.{IfOk, ◌≡◌, ◌+◌, ◌<◌, ◌≤◌, ◌^◌, length};
ghost use Rattle.format.specs.Scan.{scan_of};
ghost use Rattle.format.specs.Checks.{first, rows_below, verdict_in};
ghost use Rattle.format.specs.Names.{name_sub_block};
ghost use Rattle.format.specs.Segments.{RoomIn};
ghost use Rattle.format.specs.File.{directory_position};
ghost use Rattle.format.specs.Entry.{next_entry, dimension_count, file_position};
ghost use Rattle.format.specs.Directory.{entry_count, room_end, entry_place, directory_bad, head_rows, tile_rows, sub_block_rows, attachment_rows, entry_rows};
ghost use Rattle.format.specs.Directory.{directory_rows};
ghost use Rattle.segments.specs.Walk.{index_as};
ghost use Rattle.subblocks.specs.Judged.{Placed};
ghost use Rattle.directory.specs.Marks.{block_rows, body_rows, Marked, BlockKnown, ChunksKnown, AnsweredMarked, ChunksAnswered};

use format::{Fault, Refusal, Release, Verdict};
use segments::kinds::Kind;
use segments::walked::Walk;

// ---- the fields of the directory

// EntryCount of the directory at d.
pub fn entry_count(s: &[u8], d: u64) -> u64
    requires { d + 36 ≤ length s.now }
    ensures { (result ≡ entry_count s.now d) × (result < 2 ^ 32) }
{
    fields::u32_at(s, d + 32)
}

// The place of entry 0 of the directory that the file segment names.
pub fn first_entry(s: &[u8]) -> u64
    requires { (112 ≤ length s.now) × (entry_place s.now 0 ≤ length s.now) }
    ensures { result ≡ entry_place s.now 0 }
{
    segments::file::directory_position(s) + 160
}

// The place behind the room of the segment at d.
fn room_end(s: &[u8], d: u64) -> u64
    requires { RoomIn s.now d }
    ensures { result ≡ room_end s.now d }
{
    d + 32 + segments::room_at(s, d)
}

// ---- refusals 10 to 18

// Refusal 10 of the directory.
fn directory_bad(s: &[u8], d: u64) -> bool
    requires { RoomIn s.now d }
    ensures { result ≡ directory_bad s.now d }
{
    if segments::room_at(s, d) < 128 {
        return true;
    }
    let n = entry_count(s, d);
    if 2147483648 <= n {
        return true;
    }
    if 4096 < n {
        return true;
    }
    false
}

// An entry's first 32 bytes, mark and count, and that its dimensions fit: 10, 11, 10.
fn judge_head(s: &[u8], d: u64, e: u64) -> Verdict
    requires room_in { RoomIn s.now d }
    requires e_bound { e ≤ room_end s.now d }
    ensures { result ≡ first (head_rows s.now d e) }
{
    let end = room_end(s, d);
    if end < e + 32 {
        return Err(Refusal {
            fault: Fault::Directory,
            place: d,
        });
    }
    if entries::head_bad(s, e) {
        return Err(Refusal {
            fault: Fault::Entry,
            place: e,
        });
    }
    if end < entries::next_entry(s, e) {
        return Err(Refusal {
            fault: Fault::Directory,
            place: d,
        });
    }
    Ok(())
}

// The rest of the entry itself: 11, 12, 13, 7, 14. The index of the sub-block that it names was looked up, and is the answer.
fn judge_tile(s: &[u8], e: u64, named: Option<usize>) -> Result<usize, Refusal>
    requires e_bound { (dimension_count s.now e ≤ 16) × (next_entry s.now e ≤ length s.now) }
    requires named_value { named ≡ index_as s.now (file_position s.now e) name_sub_block }
    ensures verdict { verdict_in result ≡ first (tile_rows s.now e s.now) }
    ensures index { IfOk result (λ k. Some k ≡ named) }
{
    if entries::dimensions_bad(s, e) {
        return Err(Refusal {
            fault: Fault::Entry,
            place: e,
        });
    }
    if entries::pixel_bytes(entries::pixel_type(s, e)) == 0 {
        return Err(Refusal {
            fault: Fault::PixelType,
            place: e,
        });
    }
    if entries::compression(s, e) != 0 {
        return Err(Refusal {
            fault: Fault::Compression,
            place: e,
        });
    }
    if entries::file_part(s, e) != 0 {
        return Err(Refusal {
            fault: Fault::FilePart,
            place: e,
        });
    }
    match named {
        Some(k) => Ok(k),
        None => Err(Refusal {
            fault: Fault::NamedSegment,
            place: e,
        }),
    }
}

// The sub-block at q of the file s, its entry at e of the file d: 15, 16.
fn judge_sub_block(d: &[u8], e: u64, s: &[u8], q: u64) -> Verdict
    requires { Placed d.now e s.now q }
    ensures { result ≡ first (sub_block_rows d.now e s.now q) }
{
    if subblocks::sub_block_bad(d, e, s, q) {
        return Err(Refusal {
            fault: Fault::Copy,
            place: q,
        });
    }
    if subblocks::contents_bad(d, e, s, q) {
        return Err(Refusal {
            fault: Fault::Sizes,
            place: q,
        });
    }
    Ok(())
}

// The chunks of that sub-block, walked segment k of its file: 17, 18. They are judged once: for every entry that agrees with the sub-block they are the same.
fn judge_chunks_once(
    d: &[u8],
    e: u64,
    s: &[u8],
    q: u64,
    release: Release,
    judged: &mut [u8; 8192],
    k: usize,
) -> Verdict
    requires { ChunksKnown d.now e s.now q judged.old k release }
    ensures { ChunksAnswered s.now (attachment_rows d.now e s.now q release) judged.new k release result }
{
    if judged[k] != 0 {
        return Ok(());
    }
    subblocks::judge_attachment(d, e, s, q, release)?;
    judged[k] = 1;
    Ok(())
}

// The sub-block and its attachment's chunks: 15, 16, 17, 18.
fn judge_block(
    d: &[u8],
    e: u64,
    s: &[u8],
    q: u64,
    release: Release,
    judged: &mut [u8; 8192],
    k: usize,
) -> Verdict
    requires { BlockKnown d.now e s.now q judged.old k release }
    ensures { AnsweredMarked s.now (block_rows d.now e s.now q release) judged.new release result }
{
    judge_sub_block(d, e, s, q)?;
    judge_chunks_once(d, e, s, q, release, judged, k)
}

// An entry whose head is right, and its sub-block: 11, 12, 13, 7, 14 to 18.
fn judge_body(walk: &Walk, release: Release, judged: &mut [u8; 8192], e: u64) -> Verdict
    requires marked { Marked walk.now.file.now judged.old release }
    requires e_bound { (dimension_count walk.now.file.now e ≤ 16) × (next_entry walk.now.file.now e ≤ length walk.now.file.now) }
    ensures { AnsweredMarked walk.now.file.now (body_rows (scan_of walk.now.file.now release) e) judged.new release result }
{
    let s = walk.file;
    let q = entries::file_position(s, e);
    let k = judge_tile(s, e, walk.index_of(q, Kind::SubBlock))?;
    judge_block(s, e, s, q, release, judged, k)
}

// The entry at e of the directory at d.
fn judge_entry(walk: &Walk, release: Release, judged: &mut [u8; 8192], d: u64, e: u64) -> Verdict
    requires marked { Marked walk.now.file.now judged.old release }
    requires room_in { RoomIn walk.now.file.now d }
    requires e_bound { e ≤ room_end walk.now.file.now d }
    ensures { AnsweredMarked walk.now.file.now (entry_rows (scan_of walk.now.file.now release) d e) judged.new release result }
{
    judge_head(walk.file, d, e)?;
    judge_body(walk, release, judged, e)
}

// The entries of the directory, in order.
fn judge_entries(walk: &Walk, release: Release, d: u64, n: u64) -> Verdict
    requires room_in { RoomIn walk.now.file.now d }
    requires in_bounds { (112 ≤ length walk.now.file.now) × (entry_place walk.now.file.now 0 ≤ room_end walk.now.file.now d) }
    ensures { result ≡ first (rows_below n (λ k. entry_rows (scan_of walk.now.file.now release) d (entry_place walk.now.file.now k))) }
{
    let mut judged = [0u8; 8192];
    let mut e = first_entry(walk.file);
    for _k in 0..n {
        judge_entry(walk, release, &mut judged, d, e)?;
        e = entries::next_entry(walk.file, e);
    }
    Ok(())
}

// The directory that the file segment names.
pub fn judge_directory(walk: &Walk, release: Release) -> Verdict
    requires { (112 ≤ length walk.now.file.now) × RoomIn walk.now.file.now (directory_position walk.now.file.now) }
    ensures { result ≡ first (directory_rows (scan_of walk.now.file.now release)) }
{
    let d = segments::file::directory_position(walk.file);
    if directory_bad(walk.file, d) {
        return Err(Refusal {
            fault: Fault::Directory,
            place: d,
        });
    }
    judge_entries(walk, release, d, entry_count(walk.file, d))
}
