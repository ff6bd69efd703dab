// A file whose segments were walked: which of them a position names.
ghost use Rattle.std.specs.Prelude.{◌≡◌, length};
ghost use Rattle.format.specs.Segments.{walked, walked_as};
ghost use Rattle.segments.specs.Kinds.{name_of};
ghost use Rattle.segments.specs.Walk.{index_as};

use crate::kinds::Kind;

// The file's bytes, and the positions of its segments, in order.
#[derive(Clone, Copy)]
pub struct Walk<'a> {
    pub file: &'a [u8],
    pub positions: &'a [u64],
    ghost walked: { positions.now ≡ walked file.now },
}

impl<'a> Walk<'a> {
    // The index of the segment of that name that q names, if there is one.
    pub fn index_as(&self, q: u64, name: &[u8]) -> Option<usize>
        requires { length name.now ≡ 16 }
        ensures { result ≡ index_as self.now.file.now q name.now }
    {
        let Ok(k) = self.positions.binary_search(&q) else {
            return None;
        };
        if fields::same_name(self.file, q, name) {
            return Some(k);
        }
        None
    }

    // Whether q names a segment of that name.
    pub fn walked_as(&self, q: u64, name: &[u8]) -> bool
        requires { length name.now ≡ 16 }
        ensures { result ≡ walked_as self.now.file.now q name.now }
    {
        self.index_as(q, name).is_some()
    }

    // The index of the segment of that kind that q names, if there is one.
    pub fn index_of(&self, q: u64, kind: Kind) -> Option<usize>
        ensures { result ≡ index_as self.now.file.now q (name_of kind) }
    {
        self.index_as(q, kind.name())
    }

    // Whether q names a segment of that kind.
    pub fn names(&self, q: u64, kind: Kind) -> bool
        ensures { result ≡ walked_as self.now.file.now q (name_of kind) }
    {
        self.walked_as(q, kind.name())
    }
}
