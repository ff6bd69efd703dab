// A repack, asked by numbers.
ghost use Rattle.czi.specs.Lent.{lent_scan};
ghost use Rattle.czi.specs.Repack.{RepackSizeOut, RepackOut};

use crate::verdict::{release_of, tell_count};

// How long the new file would be.
#[unsafe(no_mangle)]
pub extern "C" fn czi_repack_size(file: &[u8], release: u32, place: &mut u64, size: &mut u64) -> u32
    ensures { RepackSizeOut (lent_scan file.now release) result place.new size.new }
{
    let length = repack::size(file, release_of(release));
    tell_count(length, place, size)
}

// The new file, put into a lent buffer.
#[unsafe(no_mangle)]
pub extern "C" fn czi_repack(
    file: &[u8],
    release: u32,
    out: &mut [u8],
    place: &mut u64,
    written: &mut u64,
) -> u32
    ensures { RepackOut (lent_scan file.now release) out.old out.new result place.new written.new }
{
    let length = repack::repack(file, release_of(release), out);
    tell_count(length, place, written)
}
