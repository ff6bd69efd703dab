// Stretches of bytes: how far bytes of a class reach, and where a string of bytes stands first.
ghost use Rattle.std.specs.Prelude.{◌≡◌, ◌<◌, ◌++◌, ℕ, length, slice_index, true, false};
ghost use Rattle.format.specs.Markup.{white, name_byte, text_byte};

// Whether a byte is white space.
#[tactic(auto, unfolding(format::specs::Markup::white, format::specs::Bytes::any_of))]
pub fn is_white(b: u8) -> bool
    ensures { result ≡ white b }
{
    b == b'\t' || b == b'\n' || b == b'\r' || b == b' '
}

// Whether a byte may stand in a tag's name.
#[tactic(auto, unfolding(format::specs::Markup::name_byte, format::specs::Bytes::any_of))]
pub fn is_name_byte(b: u8) -> bool
    ensures { result ≡ name_byte b }
{
    !(is_white(b) || b == b'/' || b == b'>' || b == b'<')
}

// Whether a byte may stand in a text.
#[tactic(auto, unfolding(format::specs::Markup::text_byte))]
pub fn is_text_byte(b: u8) -> bool
    ensures { result ≡ text_byte b }
{
    b != b'<'
}

// The bytes before the first that is not of a class, and those from it on.
pub fn split<F: Fn(u8) -> bool>(bytes: &[u8], is_of: F) -> (&[u8], &[u8])
    requires { F.IsAlwaysCallable is_of }
    ensures parts { bytes.now ≡ result.0.now ++ result.1.now }
    ensures before { (k : ℕ) → k < length result.0.now → F.post is_of (slice_index bytes.now k) true }
    ensures stop { length result.0.now < length bytes.now → F.post is_of (slice_index bytes.now (length result.0.now)) false }
{
    let end = bytes.iter().position(|b| !is_of(*b)).unwrap_or(bytes.len());
    bytes.split_at(end)
}
