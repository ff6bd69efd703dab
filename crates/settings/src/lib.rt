// The settings of a quote, read from a text of a few lines: refusals 34 and 35.
#![tactic(auto)]

ghost use Rattle.std.specs.Prelude.{◌≡◌, None, Some, true, false, cond, [], ◌∷◌, ◌+◌, ◌-◌, ◌*◌, ◌^◌, ◌≤◌, ◌<◌, length, drop, position, eqb};
ghost use Rattle.std.specs.Char.{is_ascii_digit};
ghost use Rattle.std.specs.List.{prefix_len};
ghost use Rattle.std.specs.Option.{MatchOption};
ghost use Rattle.format.specs.Markup.{every, front, behind, begins};
ghost use Rattle.format.specs.Container.{same_bytes};
ghost use Rattle.settings.specs.Settings.{digit, digits_value, fraction_of, masks_meant};
ghost use Rattle.settings.specs.Reading.{is_point, decimals_at, behind_decimals, decimals_bad, behind_pitch, pitch_at, spelling_bad, pitch_bad, edition_bad, edition_at, pitch_line_bad, behind_pitch_line, masks_bad, masks_at, settings_bad, settings_in};
ghost use Rattle.settings.specs.Answers.{SettingsRead};

use format::{Fault, Refusal};
use question::Masks;

// The edition of the settings: 1 or 2.
#[derive(Clone, Copy, Debug, PartialEq, Eq)]
pub enum Edition {
    First,
    Second,
}

// What settings say: the pitches in nanometres, and the masks choice, which is not made where the line lacks.
#[derive(Clone, Copy)]
pub struct Settings {
    pub edition: Edition,
    pub pitch_x: u64,
    pub pitch_y: u64,
    pub masks: Masks,
}

// ---- a pitch

// How many digits bytes begin with.
fn digit_count(s: &[u8]) -> usize
    ensures { result ≡ prefix_len is_ascii_digit s.now }
{
    s.iter().take_while(|b| b.is_ascii_digit()).count()
}

// The digits that bytes begin with, and what stands behind them.
fn digits(s: &[u8]) -> (&[u8], &[u8])
    ensures { (result.0.now ≡ front digit s.now) × (result.1.now ≡ behind digit s.now) }
{
    s.split_at(digit_count(s))
}

// The number that at most five digits spell.
fn number_of(digits: &[u8]) -> u64
    requires { (every digit digits.now ≡ true) × (length digits.now ≤ 5) }
    ensures { (result ≡ digits_value digits.now) × (result < 100000) }
{
    let mut n: u64 = 0;
    for d in digits.iter() {
        n = 10 * n + u64::from(*d - b'0');
    }
    n
}

// The nanometres of a point and one to three decimals that bytes begin with, and what stands behind: none and all of it, where there is no point.
fn decimals(s: &[u8]) -> Option<(u64, &[u8])>
    ensures { MatchOption result (decimals_bad s.now ≡ true) (λ p. (decimals_bad s.now ≡ false) × (p.0 ≡ fraction_of (decimals_at s.now)) × (p.0 < 10000000) × (p.1.now ≡ behind_decimals s.now)) }
{
    let Some(decimals) = s.strip_prefix(b".") else {
        return Some((0, s));
    };
    let (decimals, behind) = digits(decimals);
    if decimals.is_empty() || 3 < decimals.len() {
        return None;
    }
    let unit = match decimals.len() {
        1 => 100,
        2 => 10,
        _ => 1,
    };
    Some((number_of(decimals) * unit, behind))
}

// The pitch of 1 to 65,535 nanometres that bytes begin with, and what stands behind it.
fn pitch(s: &[u8]) -> Option<(u64, &[u8])>
    ensures { MatchOption result (pitch_bad s.now ≡ true) (λ p. (pitch_bad s.now ≡ false) × (p.0 ≡ pitch_at s.now) × (p.1.now ≡ behind_pitch s.now)) }
{
    let (whole, behind) = digits(s);
    if whole.is_empty() || 5 < whole.len() {
        return None;
    }
    let (fraction, behind) = decimals(behind)?;
    let pitch = 1000 * number_of(whole) + fraction;
    if pitch == 0 || 65535 < pitch {
        return None;
    }
    Some((pitch, behind))
}

// ---- the lines

// The edition of the first line, and what stands behind it.
fn edition_line(s: &[u8]) -> Option<(Edition, &[u8])>
    ensures { MatchOption result (edition_bad s.now ≡ true) (λ p. (edition_bad s.now ≡ false) × (p.0 ≡ edition_at s.now) × (p.1.now ≡ drop 10 s.now)) }
{
    if let Some(behind) = s.strip_prefix(b"edition=1\n") {
        return Some((Edition::First, behind));
    }
    let behind = s.strip_prefix(b"edition=2\n")?;
    Some((Edition::Second, behind))
}

// The pitch of a line that begins with a name, and what stands behind the line.
fn pitch_line<'a>(s: &'a [u8], name: &[u8]) -> Option<(u64, &'a [u8])>
    requires { length name.now ≡ 8 }
    ensures { MatchOption result (pitch_line_bad name.now s.now ≡ true) (λ p. (pitch_line_bad name.now s.now ≡ false) × (p.0 ≡ pitch_at (drop 8 s.now)) × (p.1.now ≡ behind_pitch_line s.now)) }
{
    let (pitch, behind) = pitch(s.strip_prefix(name)?)?;
    let behind = behind.strip_prefix(b"\n")?;
    Some((pitch, behind))
}

// The choice of the masks line that bytes are; none is made, where the line lacks.
fn masks_line(s: &[u8]) -> Option<Masks>
    ensures { MatchOption result (masks_bad s.now ≡ true) (λ m. (masks_bad s.now ≡ false) × (m ≡ masks_at s.now)) }
{
    if s.is_empty() {
        return Some(Masks::NotChosen);
    }
    if s == b"masks=on\n".as_slice() {
        return Some(Masks::On);
    }
    if s == b"masks=off\n".as_slice() {
        return Some(Masks::Off);
    }
    None
}

// ---- the settings

// The settings that bytes are.
fn settings_of(s: &[u8]) -> Option<Settings>
    ensures { result ≡ cond (settings_bad s.now) None (Some (settings_in s.now)) }
{
    let (edition, behind) = edition_line(s)?;
    let (pitch_x, behind) = pitch_line(behind, b"pitch_x=")?;
    let (pitch_y, behind) = pitch_line(behind, b"pitch_y=")?;
    let masks = masks_line(behind)?;
    Some(Settings {
        edition,
        pitch_x,
        pitch_y,
        masks,
    })
}

// Where the first comma stands.
fn first_comma(s: &[u8]) -> Option<usize>
    ensures { result ≡ position (λ b. eqb b 44) s.now }
{
    s.iter().position(|b| *b == b',')
}

// Reads settings: any bytes. A comma is refused first, wherever it stands.
pub fn read(s: &[u8]) -> Result<Settings, Refusal>
    ensures { SettingsRead s.now result }
{
    if let Some(comma) = first_comma(s) {
        return Err(Refusal {
            fault: Fault::Comma,
            place: comma as u64,
        });
    }
    settings_of(s).ok_or(Refusal {
        fault: Fault::Settings,
        place: 0,
    })
}

// The masks choice that settings come to: a line that lacks means off in edition 1 and on in edition 2.
pub fn masks_meant(s: Settings) -> Masks
    ensures { result ≡ masks_meant s.edition s.masks }
{
    match (s.masks, s.edition) {
        (Masks::NotChosen, Edition::First) => Masks::Off,
        (Masks::NotChosen, Edition::Second) => Masks::On,
        (chosen, _) => chosen,
    }
}
