// A quote, asked by numbers.
ghost use Rattle.std.specs.Prelude.{◌≡◌};
ghost use Rattle.plane.specs.Turns.{quick};
ghost use Rattle.czi.specs.Quote.{quote_request, quote_asked_by, QuoteOut};

use crate::verdict::{number_in, place_in, release_of};
use quote::{Figures, QuoteRequest};

// The question but for its starts, its scene, the background and the masks choice.
fn request_of(pixel_type: u32, left: i32, top: i32, width: u32, height: u32) -> QuoteRequest
    ensures { result ≡ quote_request pixel_type left top width height }
{
    QuoteRequest {
        pixel_type: u64::from(pixel_type),
        left,
        top,
        width: u64::from(width),
        height: u64::from(height),
    }
}

// What stands for the figures where a quote is refused.
const NO_FIGURES: Figures = Figures {
    covered: 0,
    length: 0,
};

// A quote: a plane by settings, with its covered count and area on the sheet.
#[unsafe(no_mangle)]
pub extern "C" fn czi_quote(
    file: &[u8],
    release: u32,
    starts: &[i32],
    any_scene: u32,
    pixel_type: u32,
    background: &[u8],
    left: i32,
    top: i32,
    width: u32,
    height: u32,
    settings: &[u8],
    target: &mut [u8],
    map: &mut [u8],
    sheet: &mut [u8],
    place: &mut u64,
    covered: &mut u64,
    written: &mut u64,
) -> u32
    ensures { QuoteOut quick (quote_asked_by file.now release starts.now any_scene pixel_type background.now left top width height settings.now) target.old map.old sheet.old target.new map.new sheet.new result place.new covered.new written.new }
{
    let by = release_of(release);
    let f = request_of(pixel_type, left, top, width, height);
    let any = any_scene != 0;
    let answer = quote::quote(
        file, by, starts, any, f, background, settings, target, map, sheet,
    );
    let figures = answer.unwrap_or(NO_FIGURES);
    *place = place_in(&answer);
    *covered = figures.covered;
    *written = figures.length;
    number_in(&answer)
}
