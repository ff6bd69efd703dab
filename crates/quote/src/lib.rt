// A quote: composes a plane by settings, and writes its covered count and area on a sheet.
#![tactic(auto)]

ghost use Rattle.std.specs.Prelude.{◌≡◌, ◌+◌, ◌≤◌, ◌<◌, length};
ghost use Rattle.plane.specs.Turns.{quick};
ghost use Rattle.compose.specs.Steps.{asked};
ghost use Rattle.settings.specs.Settings.{masks_meant};
ghost use Rattle.quote.specs.Quote.{request_with, QuoteAnswered};
ghost use Rattle.quote.specs.Steps.{quote_asked, Pitched, SheetSays, SheetWritten, QuoteBy, ShortAsked, ShortRefused};

use format::{Fault, Refusal, Release};
use question::{Counts, WindowRequest};
use settings::Settings;
use text::Text;

// The question but for its starts, its scene, the background and the masks choice, which the settings make: the asked pixel type and the window.
#[derive(Clone, Copy)]
pub struct QuoteRequest {
    pub pixel_type: u64,
    pub left: i32,
    pub top: i32,
    pub width: u64,
    pub height: u64,
}

// What a quote answers: the covered count, and the length of the sheet's text.
#[derive(Clone, Copy)]
pub struct Figures {
    pub covered: u64,
    pub length: u64,
}

// ---- the sheet

// Its two lines: the covered count, and the count times both pitches.
fn sheet_text(x: Settings, covered: u64) -> Text
    requires { Pitched x × (covered ≤ 4294967296) }
    ensures { SheetSays x covered result }
{
    let area = covered * x.pitch_x * x.pitch_y;
    let mut text = Text::new();
    text.put_line(b"covered=", covered);
    text.put_line(b"area_nm2=", area);
    text
}

// Writes them at the start of a lent sheet; the result is their length.
fn write_sheet(sheet: &mut [u8], x: Settings, covered: u64) -> u64
    requires { Pitched x × (covered ≤ 4294967296) × (49 ≤ length sheet.old) }
    ensures { SheetWritten x covered sheet.old sheet.new result }
{
    let text = sheet_text(x, covered);
    let bytes = text.as_bytes();
    sheet[..bytes.len()].copy_from_slice(bytes);
    bytes.len() as u64
}

// ---- a whole call

// What the composer is asked: the request with the masks choice that the settings come to.
fn request_by(f: QuoteRequest, x: Settings) -> WindowRequest
    ensures { result ≡ request_with (masks_meant x.edition x.masks) f }
{
    let masks = settings::masks_meant(x);
    WindowRequest {
        pixel_type: f.pixel_type,
        left: f.left,
        top: f.top,
        width: f.width,
        height: f.height,
        masks,
    }
}

// What the composer says of the empty part of the target.
fn ask_short(
    s: &[u8],
    release: Release,
    starts: &[i32],
    any_scene: bool,
    f: WindowRequest,
    background: &[u8],
    target: &mut [u8],
    map: &mut [u8],
) -> Result<Counts, Refusal>
    ensures { ShortAsked (asked s.now release starts.now any_scene f background.now) target.old map.old target.new map.new result }
{
    let none = &mut target[0..0];
    compose::compose_quick(s, release, starts, any_scene, f, background, none, map)
}

// The refusal of a quote whose sheet is too short: the composer never accepts an empty target.
fn refuse_short(
    s: &[u8],
    release: Release,
    starts: &[i32],
    any_scene: bool,
    f: WindowRequest,
    background: &[u8],
    target: &mut [u8],
    map: &mut [u8],
) -> Refusal
    ensures { ShortRefused (asked s.now release starts.now any_scene f background.now) target.old map.old target.new map.new result }
{
    match ask_short(s, release, starts, any_scene, f, background, target, map) {
        Err(refusal) => refusal,
        Ok(_) => Refusal {
            fault: Fault::LentTooShort,
            place: 0,
        },
    }
}

// A quote behind its settings: composed, and written on the sheet.
fn quote_by(
    s: &[u8],
    release: Release,
    starts: &[i32],
    any_scene: bool,
    f: WindowRequest,
    background: &[u8],
    x: Settings,
    target: &mut [u8],
    map: &mut [u8],
    sheet: &mut [u8],
) -> Result<Figures, Refusal>
    requires { Pitched x }
    ensures { QuoteBy quick (asked s.now release starts.now any_scene f background.now) x target.old map.old sheet.old target.new map.new sheet.new result }
{
    if sheet.len() < 49 {
        let refusal = refuse_short(s, release, starts, any_scene, f, background, target, map);
        return Err(refusal);
    }
    let counts = compose::compose_quick(s, release, starts, any_scene, f, background, target, map)?;
    let covered = counts.covered;
    let length = write_sheet(sheet, x, covered);
    Ok(Figures { covered, length })
}

// A quote: any file bytes, any question, any settings, any lent bytes. The quick composer is inside.
pub fn quote(
    s: &[u8],
    release: Release,
    starts: &[i32],
    any_scene: bool,
    f: QuoteRequest,
    background: &[u8],
    settings: &[u8],
    target: &mut [u8],
    map: &mut [u8],
    sheet: &mut [u8],
) -> Result<Figures, Refusal>
    ensures { QuoteAnswered quick (quote_asked s.now release starts.now any_scene f background.now settings.now) target.old map.old sheet.old target.new map.new sheet.new result }
{
    let x = settings::read(settings)?;
    let request = request_by(f, x);
    quote_by(
        s, release, starts, any_scene, request, background, x, target, map, sheet,
    )
}
