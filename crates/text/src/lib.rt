// Lines of plain ASCII text in fixed memory: an empty text, and what is put at a text's end.
#![tactic(auto)]

ghost use Rattle.std.specs.Prelude.{◌≡◌, ℤ, [], ◌∷◌, ◌++◌, ◌+◌, ◌≤◌, ◌<◌, length};
ghost use Rattle.text.specs.Text.{digits, decimal, signed_text, line, padded};

use std::marker::Model;

// A text of at most 192 bytes. Clauses see the list of the bytes that it says: those up to the length, past which all are 0.
#[derive(Clone, Copy)]
pub struct Text {
    bytes: [u8; 192],
    length: usize,
}

impl Model for Text {
    ghost use Rattle.std.specs.Prelude.{List, ℕ};
    ghost use Rattle.text.specs.Fields.{said, Clean, fields_of, fields-back};

    ghost Value = { List ℕ };

    ghost view = { said };

    ghost invariant = { Clean };

    ghost inverse = { fields_of };

    ghost inverse_ok = { fields-back };
}

impl Text {
    // The text that says nothing.
    pub fn new() -> Self
        ensures { result ≡ [] }
    {
        Text {
            bytes: [0; 192],
            length: 0,
        }
    }

    // The bytes that are said.
    pub fn as_bytes(&self) -> &[u8]
        ensures said { result.now ≡ self.now }
        ensures fits { length result.now ≤ 192 }
    {
        &self.bytes[..self.length]
    }

    // The same with zeros behind.
    pub fn to_array(&self) -> [u8; 192]
        ensures { result ≡ padded self.now }
    {
        self.bytes
    }

    // Puts a byte.
    pub fn push(&mut self, byte: u8)
        requires { length self.old < 192 }
        ensures { self.new ≡ self.old ++ byte ∷ [] }
    {
        self.bytes[self.length] = byte;
        self.length += 1;
    }

    // Puts bytes.
    pub fn put(&mut self, words: &[u8])
        requires { length self.old + length words.now ≤ 192 }
        ensures { self.new ≡ self.old ++ words.now }
    {
        let end = self.length + words.len();
        self.bytes[self.length..end].copy_from_slice(words);
        self.length = end;
    }

    // Puts the digits of a number, of which there are at most n: the last n where it has more.
    // By hand: `write!` does not say when it succeeds, and this always does.
    pub fn put_digits(&mut self, n: u64, x: u64)
        requires { length self.old + n ≤ 192 }
        ensures said { self.new ≡ self.old ++ digits n x }
        ensures most { length self.new ≤ length self.old + n }
    {
        if n == 0 {
            return;
        }
        if 10 <= x {
            self.put_digits(n - 1, x / 10);
        }
        self.push(b'0' + (x % 10) as u8);
    }

    // Puts a number in decimal.
    pub fn put_decimal(&mut self, x: u64)
        requires { length self.old + 20 ≤ 192 }
        ensures said { self.new ≡ self.old ++ decimal x }
        ensures most { length self.new ≤ length self.old + 20 }
    {
        self.put_digits(20, x)
    }

    // Puts a signed number in decimal.
    pub fn put_signed(&mut self, x: i32)
        requires { length self.old + 21 ≤ 192 }
        ensures said { self.new ≡ self.old ++ signed_text x }
        ensures most { length self.new ≤ length self.old + 11 }
    {
        if x < 0 {
            self.push(b'-');
        }
        self.put_decimal(u64::from(x.unsigned_abs()));
    }

    // Puts a line: a name and a number.
    pub fn put_line(&mut self, name: &[u8], x: u64)
        requires { length self.old + length name.now + 21 ≤ 192 }
        ensures said { self.new ≡ self.old ++ line name.now (decimal x) }
        ensures most { length self.new ≤ length self.old + length name.now + 21 }
    {
        self.put(name);
        self.put_decimal(x);
        self.push(b'\n');
    }
}
