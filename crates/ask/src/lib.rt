// Judges what a question asks and lends: the refusals 20, 21, 22.
#![tactic(auto)]

ghost use Rattle.std.specs.Prelude.{◌≡◌, false, ◌+◌, ◌≤◌, ◌<◌, ◌^◌};
ghost use Rattle.format.specs.Bytes.{shifted};
ghost use Rattle.format.specs.Checks.{first};
ghost use Rattle.question.specs.Question.{masks_on, request_window, window_bad, pixel_bad, lent_bad, ask_rows};

use format::{Fault, Refusal, Verdict};
use plane::Rect;
use question::{Masks, WindowRequest};

// Whether masks count.
pub fn masks_on(m: Masks) -> bool
    ensures { result ≡ masks_on m }
{
    matches!(m, Masks::On)
}

// The window in plane coordinates.
pub fn window_of(f: WindowRequest) -> Rect
    requires { (f.width ≤ 65536) × (f.height ≤ 65536) }
    ensures { result ≡ request_window f }
{
    Rect {
        left: fields::shifted_of(f.left) as usize,
        top: fields::shifted_of(f.top) as usize,
        width: f.width as usize,
        height: f.height as usize,
    }
}

// Refusal 20.
#[tactic(auto, using(format::proofs::Flags::flags), unfolding(question::specs::Question::window_bad))]
fn window_bad(f: WindowRequest) -> bool
    ensures { result ≡ window_bad (request_window f) }
{
    // (two steps, since the proof of one chain of six tests does not close)
    if f.width == 0 || 65536 < f.width || f.height == 0 || 65536 < f.height {
        return true;
    }
    0xFFFF_FFFF < fields::shifted_of(f.left) + f.width
        || 0xFFFF_FFFF < fields::shifted_of(f.top) + f.height
}

// Refusal 21.
#[tactic(auto, using(format::proofs::Flags::flags), unfolding(question::specs::Question::pixel_bad))]
fn pixel_bad(t: u64, background: &[u8]) -> bool
    ensures { result ≡ pixel_bad t background.now }
{
    let bytes = entries::pixel_bytes(t);
    bytes == 0 || background.len() as u64 != bytes
}

// Refusal 22, of a window whose sides are right.
#[tactic(auto, using(format::proofs::Flags::flags), unfolding(question::specs::Question::lent_bad))]
fn lent_bad(f: WindowRequest, target: u64, map: u64) -> bool
    requires { window_bad (request_window f) ≡ false }
    ensures { result ≡ lent_bad (request_window f) f.pixel_type target map }
{
    let area = f.height * f.width;
    target < area * entries::pixel_bytes(f.pixel_type) || map < area.div_ceil(8)
}

// The refusals 20, 21, 22, of a target and a map of these lengths.
#[tactic(auto, using(format::proofs::Flags::flags), unfolding(question::specs::Question::ask_rows))]
pub fn ask(f: WindowRequest, background: &[u8], target: u64, map: u64) -> Verdict
    ensures { result ≡ first (ask_rows f background.now target map) }
{
    if window_bad(f) {
        return Err(Refusal {
            fault: Fault::Window,
            place: 0,
        });
    }
    if pixel_bad(f.pixel_type, background) {
        return Err(Refusal {
            fault: Fault::AskedPixel,
            place: 0,
        });
    }
    if lent_bad(f, target, map) {
        return Err(Refusal {
            fault: Fault::LentTooShort,
            place: 0,
        });
    }
    Ok(())
}
