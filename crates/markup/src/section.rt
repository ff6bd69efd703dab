// Whether the metadata declare a chunk container: the items nest, and an outermost METADATA has the container's section.
ghost use Rattle.std.specs.Prelude.{◌≡◌, ◌==◌, ◌||◌, ◌+◌, ◌<◌, ◌≤◌, [], ◌∷◌, length, MatchOption};
ghost use Rattle.format.specs.Container.{in_section, start_stage, text_stage, is_container};
ghost use Rattle.markup.specs.Stages.{number};

use crate::items::{Item, item_at};
use std::marker::Model;

// The section's tags, outermost first.
const SECTION: [Option<&[u8]>; 3] = [
    Some(b"METADATA"),
    Some(b"AttachmentSchema"),
    Some(b"DataFormat"),
];

// The names of the open tags, of which there are at most 64. Clauses see the list of them, innermost first. Each is an Option, since 64 of none are filled
// at once, and 64 empty slices one by one, which takes as long as reading short metadata.
#[derive(Drop)]
struct Open<'a> {
    names: [Option<&'a [u8]>; 64],
    depth: usize,
}

impl<'a> Model for Open<'a> {
    ghost use Rattle.std.specs.Prelude.{List, ℕ};
    ghost use Rattle.markup.specs.Open.{open_names, Few};

    ghost Value = { List (List ℕ) };

    ghost view = { open_names };

    ghost invariant = { Few };
}

impl<'a> Open<'a> {
    fn new() -> Self
        ensures { result ≡ [] }
    {
        Open {
            names: [None; 64],
            depth: 0,
        }
    }

    fn is_empty(&self) -> bool
        ensures { result ≡ (length self.now == 0) }
    {
        self.depth == 0
    }

    fn is_full(&self) -> bool
        ensures value { result ≡ (length self.now == 64) }
        ensures few { length self.now ≤ 64 }
    {
        self.depth == 64
    }

    fn push(&mut self, name: &'a [u8])
        requires { length self.old < 64 }
        ensures { self.new ≡ name.now ∷ self.old }
    {
        self.names[self.depth] = Some(name);
        self.depth += 1;
    }

    fn pop(&mut self) -> Option<&'a [u8]>
        ensures { MatchOption result ((self.old ≡ []) × (self.new ≡ [])) (λ name. self.old ≡ name.now ∷ self.new) }
    {
        if self.depth == 0 {
            return None;
        }
        self.depth -= 1;
        Some(self.names[self.depth].unwrap_or(b""))
    }

    // Whether they are the section's three.
    fn is_section(&self) -> bool
        ensures { result ≡ in_section self.now }
    {
        self.names[..self.depth] == SECTION[..]
    }
}

// How much of the section's end has come: its last start tag, just behind that; its text, where that is all that follows.
#[derive(Clone, Copy, PartialEq, Eq)]
enum Stage {
    Elsewhere,
    Begun,
    Said,
}

// With a start tag, which is the innermost of the open ones.
#[tactic(auto, unfolding(format::specs::Container::start_stage))]
fn start_stage(tags: &Open) -> Stage
    ensures { number result ≡ start_stage tags.now }
{
    if tags.is_section() {
        Stage::Begun
    } else {
        Stage::Elsewhere
    }
}

// With a text.
fn text_stage(stage: Stage, text: &[u8]) -> Stage
    ensures { number result ≡ text_stage (number stage) text.now }
{
    if stage == Stage::Begun && text == b"CHUNKCONTAINER".as_slice() {
        Stage::Said
    } else {
        Stage::Elsewhere
    }
}

// Whether the n bytes of metadata from p on declare a chunk container.
pub fn is_container(s: &[u8], p: u64, n: u64) -> bool
    requires { p + n ≤ length s.now }
    ensures { result ≡ is_container s.now p n }
{
    let mut rest = fields::part(s, p, n);
    let mut tags = Open::new();
    let mut stage = Stage::Elsewhere;
    let mut found = false;
    // a while loop: each item says what stands behind it, and an iterator of items would have no place for bytes that are no item
    while !rest.is_empty() {
        let Some((item, behind)) = item_at(rest) else {
            return false;
        };
        rest = behind;
        match item {
            Item::Start(name) => {
                if tags.is_full() {
                    return false;
                }
                tags.push(name);
                stage = start_stage(&tags);
            }
            Item::Close(name) => {
                let Some(last) = tags.pop() else {
                    return false;
                };
                if name != last {
                    return false;
                }
                found |= stage == Stage::Said;
                stage = Stage::Elsewhere;
            }
            Item::Text(text) => stage = text_stage(stage, text),
            Item::Empty | Item::Skipped => stage = Stage::Elsewhere,
        }
    }
    tags.is_empty() && found
}
