//! What is printed for the lines of a portion, in room that is made once.

ghost use Rattle.std.specs.Prelude.{◌≡◌, ◌+◌, ◌<◌, ◌≤◌, ◌++◌, ◌∷◌, ℕ, List, [], true, false, length, take};

use std::marker::Model;

/// How many bytes there is room for: more than is printed for the lines that are whole in 1024 bytes.
const ROOM: usize = 8192;

/// How long a prefix may be.
const PREFIX: usize = 8;

/// At most `ROOM` bytes.
#[derive(Drop)]
pub(crate) struct Page {
    bytes: [u8; ROOM],
    len: usize,
}

impl Model for Page {
    ghost Value = { List ℕ };

    ghost view = { λ page. take page.len page.bytes };

    ghost invariant = { λ page. page.len ≤ 8192 };
}

impl Page {
    /// No byte.
    pub(crate) fn new() -> Page
        ensures { result ≡ [] }
    {
        Page {
            bytes: [0; ROOM],
            len: 0,
        }
    }

    /// The bytes.
    pub(crate) fn as_slice(&self) -> &[u8]
        ensures { result.now ≡ self.now }
    {
        &self.bytes[..self.len]
    }

    /// Forgets all bytes.
    pub(crate) fn clear(&mut self)
        ensures { self.new ≡ [] }
    {
        self.len = 0;
    }

    /// How many bytes there are.
    fn len(&self) -> usize
        ensures value { result ≡ length self.now }
        ensures bound { result ≤ ROOM }
    {
        self.len
    }

    /// Appends bytes.
    #[inline(always)]
    fn append(&mut self, more: &[u8])
        requires { length self.old + length more.now ≤ ROOM }
        ensures { self.new ≡ self.old ++ more.now }
    {
        let end = self.len + more.len();
        self.bytes[self.len..end].copy_from_slice(more);
        self.len = end;
    }

    /// Appends a prefix, a text and a line end, if there is room. If not, nothing is appended.
    #[inline(always)]
    pub(crate) fn put(&mut self, prefix: &[u8], text: &[u8]) -> bool
        requires { length prefix.now ≤ PREFIX }
        ensures put { result ≡ true → self.new ≡ self.old ++ (prefix.now ++ (text.now ++ (10 ∷ []))) }
        ensures kept { result ≡ false → self.new ≡ self.old }
    {
        if ROOM - self.len() <= PREFIX + text.len() {
            return false;
        }
        self.append(prefix);
        self.append(text);
        self.append(b"\n");
        true
    }
}
