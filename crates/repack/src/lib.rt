// A new file from an accepted one, without dead segments and slack, its spare bytes zero, put into a lent buffer.
#![tactic(auto)]

ghost use Rattle.std.specs.Prelude.{◌≡◌, length};
ghost use Rattle.format.specs.Scan.{scan_of};
ghost use Rattle.repacked.specs.NewFile.{repacked};
ghost use Rattle.repacked.specs.Refusals.{size_verdict, repack_verdict};
ghost use Rattle.repack.specs.Answers.{RepackAnswered, PlacesAnswered, out_after};

use crate::sizes::{Places, new_places, too_large};
use crate::write::put_new_file;
use format::{Fault, Refusal, Release};

pub mod sizes;
pub mod write;

// Where the segments of the new file of any bytes would stand under a release: the file's refusal, or 36.
fn judged_places(s: &[u8], release: Release) -> Result<Places, Refusal>
    ensures { PlacesAnswered (scan_of s.now release) result }
{
    judge::judge(s, release)?;
    let places = new_places(s);
    if too_large(s, places) {
        return Err(Refusal {
            fault: Fault::RepackTooLarge,
            place: 0,
        });
    }
    Ok(places)
}

// How long the new file of any bytes would be under a release: the file's refusal, or 36.
pub fn size(s: &[u8], release: Release) -> Result<u64, Refusal>
    ensures { RepackAnswered (size_verdict (scan_of s.now release)) (length (repacked s.now)) result }
{
    let places = judged_places(s, release)?;
    Ok(places.end)
}

// Repacks any bytes under a release into a lent buffer: the file's refusal, 36, or 25 where the buffer is shorter than the new file. Refused, it changes nothing.
pub fn repack(s: &[u8], release: Release, out: &mut [u8]) -> Result<u64, Refusal>
    ensures repack_answered { RepackAnswered (repack_verdict (scan_of s.now release) (length out.old)) (length (repacked s.now)) result }
    ensures out_after { out.new ≡ out_after (scan_of s.now release) out.old }
{
    let places = judged_places(s, release)?;
    if (out.len() as u64) < places.end {
        return Err(Refusal {
            fault: Fault::RepackBuffer,
            place: 0,
        });
    }
    put_new_file(out, s, places);
    Ok(places.end)
}
