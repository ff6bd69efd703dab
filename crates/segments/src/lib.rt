// Judges the segments of a CZI file held in a lent slice, refusals 1 to 5, and fills a table with the positions of the walked ones.
#![tactic(auto)]

ghost use Rattle.std.specs.Prelude.{◌≡◌, ◌+◌, ◌≤◌, ◌%◌, length};
ghost use Rattle.format.specs.Checks.{first};
ghost use Rattle.format.specs.Segments.{allocated_size, used_size, room, length_bad, name_bad, allocated_bad, used_bad, end_bad, sizes_bad, role_bad};
ghost use Rattle.format.specs.Segments.{segment_rows, walk_rows, walked_from, walked, segments_rows};
ghost use Rattle.segments.specs.Walk.{WalkAnswered, SegmentsAnswered};

use fields::u64_at;
use format::{Fault, Refusal, Verdict};
use kinds::Kind;

pub mod file;
pub mod kinds;
pub mod walked;

// AllocatedSize of the segment at p.
fn allocated_at(s: &[u8], p: u64) -> u64
    requires { p + 32 ≤ length s.now }
    ensures { result ≡ allocated_size s.now p }
{
    u64_at(s, p + 16)
}

// UsedSize of the segment at p.
fn used_at(s: &[u8], p: u64) -> u64
    requires { p + 32 ≤ length s.now }
    ensures { result ≡ used_size s.now p }
{
    u64_at(s, p + 24)
}

// The room of the segment at p: UsedSize, where 0 is read as AllocatedSize.
pub fn room_at(s: &[u8], p: u64) -> u64
    requires { p + 32 ≤ length s.now }
    ensures { result ≡ room s.now p }
{
    let used = used_at(s, p);
    let allocated = allocated_at(s, p);
    if used == 0 {
        return allocated;
    }
    used
}

// Refusal 1: length 0, not a multiple of 32, or above 2^40.
fn length_bad(s: &[u8]) -> bool
    ensures { result ≡ length_bad s.now }
{
    let len = s.len() as u64;
    if len == 0 {
        return true;
    }
    let over = len % 32;
    if over != 0 {
        return true;
    }
    if 1099511627776 < len {
        return true;
    }
    false
}

// Refusal 2: unknown name.
fn name_bad(s: &[u8], p: u64) -> bool
    requires { p + 32 ≤ length s.now }
    ensures { result ≡ name_bad s.now p }
{
    for kind in &Kind::ALL {
        if kind.stands_at(s, p) {
            return false;
        }
    }
    true
}

// Refusal 3, AllocatedSize: negative or not a multiple of 32.
fn allocated_bad(s: &[u8], p: u64) -> bool
    requires { p + 32 ≤ length s.now }
    ensures { result ≡ allocated_bad s.now p }
{
    let allocated = allocated_at(s, p);
    if 9223372036854775808 <= allocated {
        return true;
    }
    let over = allocated % 32;
    if over != 0 {
        return true;
    }
    false
}

// Refusal 3, UsedSize: negative or larger than AllocatedSize.
fn used_bad(s: &[u8], p: u64) -> bool
    requires { p + 32 ≤ length s.now }
    ensures { result ≡ used_bad s.now p }
{
    let used = used_at(s, p);
    if 9223372036854775808 <= used {
        return true;
    }
    if allocated_at(s, p) < used {
        return true;
    }
    false
}

// Refusal 3, the end: past the file. What is left of the file is compared, since the end itself may not fit.
fn end_bad(s: &[u8], p: u64) -> bool
    requires { p + 32 ≤ length s.now }
    ensures { result ≡ end_bad s.now p }
{
    let left = s.len() as u64 - p - 32;
    if left < allocated_at(s, p) {
        return true;
    }
    false
}

// Refusal 3.
fn sizes_bad(s: &[u8], p: u64) -> bool
    requires { p + 32 ≤ length s.now }
    ensures { result ≡ sizes_bad s.now p }
{
    if allocated_bad(s, p) {
        return true;
    }
    if used_bad(s, p) {
        return true;
    }
    end_bad(s, p)
}

// Refusal 5: the first is not the file segment, a later one is, or its room is under 80.
fn role_bad(s: &[u8], p: u64) -> bool
    requires { p + 32 ≤ length s.now }
    ensures { result ≡ role_bad s.now p }
{
    let file = Kind::File.stands_at(s, p);
    if p != 0 {
        return file;
    }
    if !file {
        return true;
    }
    if room_at(s, p) < 80 {
        return true;
    }
    false
}

// The segment at p: refusals 2, 3, 5.
#[tactic(auto, using(format::proofs::Flags::flags), unfolding(format::specs::Segments::segment_rows))]
fn judge_segment(s: &[u8], p: u64) -> Verdict
    requires { p + 32 ≤ length s.now }
    ensures { result ≡ first (segment_rows s.now p) }
{
    if name_bad(s, p) {
        return Err(Refusal {
            fault: Fault::SegmentName,
            place: p,
        });
    }
    if sizes_bad(s, p) {
        return Err(Refusal {
            fault: Fault::SegmentSizes,
            place: p,
        });
    }
    if role_bad(s, p) {
        return Err(Refusal {
            fault: Fault::FirstSegment,
            place: p,
        });
    }
    Ok(())
}

// The walk from the first segment, in a file whose length is right: refusals 4, 2, 3, 5 for each.
fn walk_segments(s: &[u8], table: &mut [u64; 8192]) -> Result<usize, Refusal>
    requires s_len { length s.now % 32 ≡ 0 }
    requires table_len { length table.old ≡ 8192 }
    ensures { WalkAnswered (first (walk_rows 8192 s.now 0)) (walked_from 8192 s.now 0) table.old table.new result }
{
    let len = s.len() as u64;
    let mut p: u64 = 0;
    let mut k: usize = 0;
    // a while loop: each segment says where the next one begins
    while p < len {
        if k == table.len() {
            return Err(Refusal {
                fault: Fault::SegmentCount,
                place: p,
            });
        }
        judge_segment(s, p)?;
        table[k] = p;
        k += 1;
        p = p + 32 + allocated_at(s, p);
    }
    Ok(k)
}

// Refusals 1 to 5; the positions of the segments that are not refused go to the table.
pub fn walk(s: &[u8], table: &mut [u64; 8192]) -> Result<usize, Refusal>
    requires { length table.old ≡ 8192 }
    ensures { WalkAnswered (first (segments_rows s.now)) (walked s.now) table.old table.new result }
{
    if length_bad(s) {
        return Err(Refusal {
            fault: Fault::Length,
            place: 0,
        });
    }
    walk_segments(s, table)
}

// Refusals 1 to 5, and the number of segments where there is none.
pub fn judge_segments(s: &[u8]) -> Result<usize, Refusal>
    ensures { SegmentsAnswered (first (segments_rows s.now)) (walked s.now) result }
{
    let mut table = [0u64; 8192];
    walk(s, &mut table)
}
