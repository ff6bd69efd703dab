// Judges a whole file: the refusals 1 to 18 in the paper's order.
#![tactic(auto)]

ghost use Rattle.std.specs.Prelude.{◌≡◌, ◌++◌, ◌+◌, ◌≤◌, length};
ghost use Rattle.format.specs.Scan.{scan_of};
ghost use Rattle.format.specs.Checks.{first};
ghost use Rattle.format.specs.File.{names_none_but0, file_rows};
ghost use Rattle.format.specs.Directory.{tile_count};
ghost use Rattle.format.specs.Attachments.{attachment_count};
ghost use Rattle.format.specs.Rules.{verdict, AcceptedFile};
ghost use Rattle.format.specs.Answers.{VerdictAnswered};
ghost use Rattle.segments.specs.Kinds.{name_of};
ghost use Rattle.judge.specs.Located.{annex_rows, named_rows, Located};

use format::{Fault, Refusal, Release, Verdict};
use segments::kinds::Kind;
use segments::walked::Walk;

// ---- the file segment

// Whether position q names no walked segment of that kind, where 0 means none.
fn names_none_but_0(walk: &Walk, q: u64, kind: Kind) -> bool
    ensures { result ≡ names_none_but0 walk.now.file.now q (name_of kind) }
{
    if q == 0 {
        return false;
    }
    !walk.names(q, kind)
}

// Refusals 6, 7, 8, and 9 in field order.
fn judge_file(walk: &Walk) -> Verdict
    requires { 112 ≤ length walk.now.file.now }
    ensures { result ≡ first (file_rows walk.now.file.now) }
{
    let s = walk.file;
    if segments::file::major(s) != 1 {
        return Err(Refusal {
            fault: Fault::Major,
            place: 0,
        });
    }
    if segments::file::file_part(s) != 0 {
        return Err(Refusal {
            fault: Fault::FilePart,
            place: 0,
        });
    }
    if segments::file::update_pending(s) != 0 {
        return Err(Refusal {
            fault: Fault::UpdatePending,
            place: 0,
        });
    }
    if !walk.names(segments::file::directory_position(s), Kind::Directory) {
        return Err(Refusal {
            fault: Fault::Positions,
            place: 84,
        });
    }
    if names_none_but_0(walk, segments::file::metadata_position(s), Kind::Metadata) {
        return Err(Refusal {
            fault: Fault::Positions,
            place: 92,
        });
    }
    if names_none_but_0(
        walk,
        segments::file::attachment_directory_position(s),
        Kind::AttachmentDirectory,
    ) {
        return Err(Refusal {
            fault: Fault::Positions,
            place: 104,
        });
    }
    Ok(())
}

// ---- the whole file

// The file segment and what it names: the sub-block directory, the metadata segment, the attachment directory.
fn judge_walked(walk: &Walk, release: Release) -> Verdict
    requires { 112 ≤ length walk.now.file.now }
    ensures { result ≡ first (file_rows walk.now.file.now ++ named_rows (scan_of walk.now.file.now release)) }
{
    judge_file(walk)?;
    directory::judge_directory(walk, release)?;
    attachments::judge_metadata(walk.file)?;
    attachments::judge_attachments(walk)
}

// The verdict on any bytes under a release.
pub fn judge(s: &[u8], release: Release) -> Verdict
    ensures { VerdictAnswered (verdict (scan_of s.now release)) result }
{
    let mut table = [0u64; 8192];
    let count = segments::walk(s, &mut table)?;
    let walk = Walk {
        file: s,
        positions: &table[..count],
    };
    judge_walked(&walk, release)
}

// ---- how much a file has that is accepted, under whichever release

// How many tiles there are: the entries of the sub-block directory.
pub fn tile_count(s: &[u8]) -> u64
    requires { AcceptedFile s.now }
    ensures { result ≡ tile_count s.now }
{
    directory::entry_count(s, segments::file::directory_position(s))
}

// How many attachments there are: none without an attachment directory.
pub fn attachment_count(s: &[u8]) -> u64
    requires { AcceptedFile s.now }
    ensures { result ≡ attachment_count s.now }
{
    let t = segments::file::attachment_directory_position(s);
    if t == 0 {
        return 0;
    }
    attachments::attachment_entry_count(s, t)
}
