// The composers, asked by numbers.
ghost use Rattle.std.specs.Prelude.{◌≡◌};
ghost use Rattle.format.specs.Checks.{verdict_in};
ghost use Rattle.plane.specs.Turns.{plain, quick};
ghost use Rattle.question.specs.Call.{covered_in, stored_in};
ghost use Rattle.czi.specs.Plane.{choice_of, request_of, plane_asked, PlaneOut};
ghost use Rattle.czi.specs.Out.{VerdictOut};

use crate::verdict::{number_in, place_in, release_of};
use format::Refusal;
use question::{Counts, Masks, WindowRequest};

// The masks choice of a number: 1 on, 2 off, any other not chosen.
#[tactic(auto, using(format::proofs::Flags::flags), unfolding(crate::specs::Plane::choice_of))]
fn choice_of(masks: u32) -> Masks
    ensures { result ≡ choice_of masks }
{
    match masks {
        1 => Masks::On,
        2 => Masks::Off,
        _ => Masks::NotChosen,
    }
}

// The question but for its starts and the background.
fn request_of(
    pixel_type: u32,
    left: i32,
    top: i32,
    width: u32,
    height: u32,
    masks: u32,
) -> WindowRequest
    ensures { result ≡ request_of pixel_type left top width height masks }
{
    WindowRequest {
        pixel_type: u64::from(pixel_type),
        left,
        top,
        width: u64::from(width),
        height: u64::from(height),
        masks: choice_of(masks),
    }
}

// What stands for the counts where a call is refused.
const NO_COUNTS: Counts = Counts {
    covered: 0,
    stored: 0,
};

// What a composer answered.
fn tell_counts(
    answer: Result<Counts, Refusal>,
    place: &mut u64,
    covered: &mut u64,
    stored: &mut u64,
) -> u32
    ensures refusal { VerdictOut (verdict_in answer) result place.new }
    ensures counts { (covered.new ≡ covered_in answer) × (stored.new ≡ stored_in answer) }
{
    let c = answer.unwrap_or(NO_COUNTS);
    *place = place_in(&answer);
    *covered = c.covered;
    *stored = c.stored;
    number_in(&answer)
}

// The plain composer: bottom tile first.
#[unsafe(no_mangle)]
pub extern "C" fn czi_compose_plain(
    file: &[u8],
    release: u32,
    starts: &[i32],
    any_scene: u32,
    pixel_type: u32,
    background: &[u8],
    left: i32,
    top: i32,
    width: u32,
    height: u32,
    masks: u32,
    target: &mut [u8],
    map: &mut [u8],
    place: &mut u64,
    covered: &mut u64,
    stored: &mut u64,
) -> u32
    ensures { PlaneOut plain (plane_asked file.now release starts.now any_scene pixel_type background.now left top width height masks) target.old map.old target.new map.new result place.new covered.new stored.new }
{
    let f = request_of(pixel_type, left, top, width, height, masks);
    let any = any_scene != 0;
    let answer = compose::compose_plain(
        file,
        release_of(release),
        starts,
        any,
        f,
        background,
        target,
        map,
    );
    tell_counts(answer, place, covered, stored)
}

// The quick composer: top tile first, each pixel stored at most once.
#[unsafe(no_mangle)]
pub extern "C" fn czi_compose_quick(
    file: &[u8],
    release: u32,
    starts: &[i32],
    any_scene: u32,
    pixel_type: u32,
    background: &[u8],
    left: i32,
    top: i32,
    width: u32,
    height: u32,
    masks: u32,
    target: &mut [u8],
    map: &mut [u8],
    place: &mut u64,
    covered: &mut u64,
    stored: &mut u64,
) -> u32
    ensures { PlaneOut quick (plane_asked file.now release starts.now any_scene pixel_type background.now left top width height masks) target.old map.old target.new map.new result place.new covered.new stored.new }
{
    let f = request_of(pixel_type, left, top, width, height, masks);
    let any = any_scene != 0;
    let answer = compose::compose_quick(
        file,
        release_of(release),
        starts,
        any,
        f,
        background,
        target,
        map,
    );
    tell_counts(answer, place, covered, stored)
}
