// The verdict on a file, an answer's refusal as numbers, and what the interface says of itself.
ghost use Rattle.std.specs.Prelude.{◌≡◌};
ghost use Rattle.format.specs.Checks.{number_of, place_of, verdict_in, value_in};
ghost use Rattle.format.specs.Entry.{pixel_bytes};
ghost use Rattle.format.specs.Rules.{verdict};
ghost use Rattle.czi.specs.Lent.{release_of, lent_scan};
ghost use Rattle.czi.specs.Out.{interface_number, VerdictOut};

use format::{Refusal, Release};

// The number of the refusal, 0 where there is none.
pub fn number_in<T>(answer: &Result<T, Refusal>) -> u32
    ensures { result ≡ number_of (verdict_in answer.now) }
{
    match answer {
        Ok(_) => 0,
        Err(e) => e.fault.number(),
    }
}

// Its place, 0 where there is none.
pub fn place_in<T>(answer: &Result<T, Refusal>) -> u64
    ensures { result ≡ place_of (verdict_in answer.now) }
{
    match answer {
        Ok(_) => 0,
        Err(e) => e.place,
    }
}

// A count that was asked for, 0 where refused.
pub fn tell_count(answer: Result<u64, Refusal>, place: &mut u64, count: &mut u64) -> u32
    ensures refusal { VerdictOut (verdict_in answer) result place.new }
    ensures count { count.new ≡ value_in 0 answer }
{
    *place = place_in(&answer);
    *count = answer.unwrap_or(0);
    number_in(&answer)
}

// The release of a number: 1 is 1.02, any other 1.2. No `From`: the numbers are C's, and only `format`, which has the type, could write one.
#[tactic(auto, using(format::proofs::Flags::flags), unfolding(crate::specs::Lent::release_of))]
pub fn release_of(release: u32) -> Release
    ensures { result ≡ release_of release }
{
    match release {
        1 => Release::R102,
        _ => Release::R12,
    }
}

// The verdict on a file.
#[unsafe(no_mangle)]
pub extern "C" fn czi_judge(file: &[u8], release: u32, place: &mut u64) -> u32
    ensures { VerdictOut (verdict (lent_scan file.now release)) result place.new }
{
    let v = judge::judge(file, release_of(release));
    *place = place_in(&v);
    number_in(&v)
}

// The number of this interface: it rises with every changed signature or array length.
#[unsafe(no_mangle)]
pub extern "C" fn czi_version() -> u32
    ensures { result ≡ interface_number }
{
    3
}

// Bytes a pixel of a type; 0 where the type is not listed.
#[unsafe(no_mangle)]
pub extern "C" fn czi_pixel_bytes(pixel_type: u32) -> u32
    ensures { result ≡ pixel_bytes pixel_type }
{
    entries::pixel_bytes(pixel_type as u64) as u32
}
