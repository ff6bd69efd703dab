// The items of the metadata, one at a time: what bytes begin with, and what stands behind it.
ghost use Rattle.std.specs.Prelude.{◌≡◌, ◌<◌, [], ◌∷◌, length};
ghost use Rattle.format.specs.Markup.{begins_name, behind_first, quote, behind_tag, tag_at, end_tag_at, item_at};
ghost use Rattle.markup.specs.Items.{rest_in, tag_in, skipped_behind, declaration_at, found_in};

use crate::stretches::{is_name_byte, is_text_byte, is_white, split};

// A start or an end tag by its name, an empty-element tag, a text by its bytes, a skipped part.
#[derive(Clone, Copy)]
pub enum Item<'a> {
    Start(&'a [u8]),
    Close(&'a [u8]),
    Empty,
    Text(&'a [u8]),
    Skipped,
}

// ---- skipped parts

// What stands behind the first closer.
pub fn behind_first<'a>(bytes: &'a [u8], closer: &[u8]) -> Option<&'a [u8]>
    requires { 0 < length closer.now }
    ensures { rest_in result ≡ behind_first closer.now bytes.now }
{
    let size = closer.len();
    if bytes.len() < size {
        return None;
    }
    for at in 0..bytes.len() - size + 1 {
        if bytes[at..at + size] == closer[..] {
            return Some(&bytes[at + size..]);
        }
    }
    None
}

// The rest of a skipped part, from behind its opener on: it ends with the first closer.
fn skip<'a>(bytes: &'a [u8], closer: &[u8]) -> Option<(Item<'a>, &'a [u8])>
    requires { 0 < length closer.now }
    ensures { found_in result ≡ skipped_behind closer.now bytes.now }
{
    let rest = behind_first(bytes, closer)?;
    Some((Item::Skipped, rest))
}

// A comment or a character-data section, from behind `<!` on. Nothing else begins so.
fn declaration(bytes: &[u8]) -> Option<(Item<'_>, &[u8])>
    ensures { found_in result ≡ declaration_at bytes.now }
{
    if bytes.starts_with(b"--") {
        return skip(&bytes[2..], b"-->");
    }
    if bytes.starts_with(b"[CDATA[") {
        return skip(&bytes[7..], b"]]>");
    }
    None
}

// ---- tags

// Whether a byte begins what it encloses.
#[tactic(auto, unfolding(format::specs::Markup::quote, format::specs::Bytes::any_of))]
fn is_quote(b: u8) -> bool
    ensures { result ≡ quote b }
{
    b == b'"' || b == b'\''
}

// What stands behind the quote that closes a stretch.
fn behind_quote(bytes: &[u8], quote: u8) -> Option<&[u8]>
    ensures { rest_in result ≡ behind_first (quote ∷ []) bytes.now }
{
    for (i, b) in bytes.iter().enumerate() {
        if *b == quote {
            return Some(&bytes[i + 1..]);
        }
    }
    None
}

// The rest of a start tag, from behind its name on: whether the tag is empty, `/` being the last byte before its `>`, and what stands behind that, the
// first outside quotes.
fn behind_tag(bytes: &[u8]) -> Option<(bool, &[u8])>
    ensures { tag_in result ≡ behind_tag 0 0 bytes.now }
{
    let mut last = 0;
    let mut rest = bytes;
    // a while loop: what a quote encloses is passed at once
    while let Some((b, behind)) = rest.split_first() {
        if *b == b'>' {
            return Some((last == b'/', behind));
        }
        if *b == b'<' {
            return None;
        }
        rest = if is_quote(*b) {
            behind_quote(behind, *b)?
        } else {
            behind
        };
        last = *b;
    }
    None
}

// Whether bytes are a name: there is one, and the first is not `!`.
fn begins_name(bytes: &[u8]) -> bool
    ensures { result ≡ begins_name bytes.now }
{
    !bytes.is_empty() && bytes[0] != b'!'
}

// A start tag or an empty-element tag, from behind `<` on.
fn tag(bytes: &[u8]) -> Option<(Item<'_>, &[u8])>
    ensures { found_in result ≡ tag_at bytes.now }
{
    let (name, rest) = split(bytes, is_name_byte);
    if !begins_name(name) {
        return None;
    }
    let (is_empty, rest) = behind_tag(rest)?;
    Some((
        if is_empty {
            Item::Empty
        } else {
            Item::Start(name)
        },
        rest,
    ))
}

// An end tag, from behind `</` on.
fn end_tag(bytes: &[u8]) -> Option<(Item<'_>, &[u8])>
    ensures { found_in result ≡ end_tag_at bytes.now }
{
    let (name, rest) = split(bytes, is_name_byte);
    if !begins_name(name) {
        return None;
    }
    let (_, rest) = split(rest, is_white);
    let (last, rest) = rest.split_first()?;
    if *last != b'>' {
        return None;
    }
    Some((Item::Close(name), rest))
}

// ---- any item

// What begins with `<`, from behind it on. The byte there is tested by itself: where a prefix is stripped, each item waits for the one before.
fn mark_at(mark: &[u8]) -> Option<(Item<'_>, &[u8])>
    ensures { found_in result ≡ item_at (60 ∷ mark.now) }
{
    let (kind, behind) = mark.split_first()?;
    if *kind == b'!' {
        return declaration(behind);
    }
    if *kind == b'?' {
        return skip(behind, b"?>");
    }
    if *kind == b'/' {
        return end_tag(behind);
    }
    tag(mark)
}

// The item that bytes begin with, and what stands behind it. No bytes are an empty text.
pub fn item_at(bytes: &[u8]) -> Option<(Item<'_>, &[u8])>
    ensures { found_in result ≡ item_at bytes.now }
{
    let Some((first, mark)) = bytes.split_first() else {
        return Some((Item::Text(bytes), bytes));
    };
    if *first == b'<' {
        return mark_at(mark);
    }
    let (text, rest) = split(bytes, is_text_byte);
    Some((Item::Text(text), rest))
}
