// The tiles that a question selects and that meet its window, marked and counted, asked by numbers.
ghost use Rattle.czi.specs.Chosen.{chosen_asked, ChosenOut};

use crate::verdict::{number_in, place_in, release_of};
use counting::ChosenCounts;

// What stands for the counts where a call is refused.
const NO_COUNTS: ChosenCounts = ChosenCounts {
    selected: 0,
    meeting: 0,
};

// A mark a tile, and how many are selected and how many of those share a pixel with the window. A refused call leaves the marks as they were.
#[unsafe(no_mangle)]
pub extern "C" fn czi_chosen(
    file: &[u8],
    release: u32,
    starts: &[i32],
    any_scene: u32,
    left: i32,
    top: i32,
    width: u32,
    height: u32,
    marks: &mut [u8],
    place: &mut u64,
    selected: &mut u64,
    meeting: &mut u64,
) -> u32
    ensures { ChosenOut (chosen_asked file.now release starts.now any_scene left top width height) marks.old marks.new result place.new selected.new meeting.new }
{
    let any = any_scene != 0;
    let answer = counting::chosen(
        file,
        release_of(release),
        starts,
        any,
        left,
        top,
        width,
        height,
        marks,
    );
    let c = answer.unwrap_or(NO_COUNTS);
    *place = place_in(&answer);
    *selected = c.selected;
    *meeting = c.meeting;
    number_in(&answer)
}
