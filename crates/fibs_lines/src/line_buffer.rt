//! The first bytes of a line.

ghost use Rattle.std.specs.Prelude.{◌≡◌, ◌↔◌, ◌+◌, ◌-◌, ◌≤◌, ◌++◌, ℕ, List, [], IsTrue, length, take};

use crate::LIMIT;
use std::marker::Model;

/// One byte more than a line's, since it may be the CR before a line end.
pub(crate) const ROOM: usize = LIMIT + 1;

/// At most `ROOM` bytes, which need no work to be forgotten: an `ArrayVec` would write over each.
#[derive(Drop)]
pub(crate) struct LineBuffer {
    bytes: [u8; ROOM],
    len: usize,
}

impl Model for LineBuffer {
    ghost Value = { List ℕ };

    ghost view = { λ buffer. take buffer.len buffer.bytes };

    ghost invariant = { λ buffer. buffer.len ≤ 16385 };
}

impl LineBuffer {
    /// No byte.
    pub(crate) fn new() -> LineBuffer
        ensures { result ≡ [] }
    {
        LineBuffer {
            bytes: [0; ROOM],
            len: 0,
        }
    }

    /// How many bytes there are.
    pub(crate) fn len(&self) -> usize
        ensures value { result ≡ length self.now }
        ensures bound { result ≤ ROOM }
    {
        self.len
    }

    /// True if there is none.
    pub(crate) fn is_empty(&self) -> bool
        ensures { IsTrue result ↔ (self.now ≡ []) }
    {
        self.len == 0
    }

    /// How many more there is room for.
    pub(crate) fn room(&self) -> usize
        ensures value { result ≡ ROOM - length self.now }
        ensures fits { length self.now ≤ ROOM }
    {
        ROOM - self.len
    }

    /// The bytes.
    pub(crate) fn as_slice(&self) -> &[u8]
        ensures { result.now ≡ self.now }
    {
        &self.bytes[..self.len]
    }

    /// Forgets all bytes.
    pub(crate) fn clear(&mut self)
        ensures { self.new ≡ [] }
    {
        self.len = 0;
    }

    /// Forgets the bytes after the first `len`.
    pub(crate) fn truncate(&mut self, len: usize)
        requires { len ≤ length self.old }
        ensures { self.new ≡ take len self.old }
    {
        self.len = len;
    }

    /// Appends bytes.
    #[inline(always)]
    pub(crate) fn append(&mut self, more: &[u8])
        requires { length self.old + length more.now ≤ ROOM }
        ensures { self.new ≡ self.old ++ more.now }
    {
        let end = self.len + more.len();
        self.bytes[self.len..end].copy_from_slice(more);
        self.len = end;
    }
}
