//! The parts of a message that are not names.

ghost use Rattle.std.specs.Prelude.{◌≡◌, ◌==◌, ◌↔◌, codes, not, true, IsTrue, IsSome, IfSome};
ghost use Rattle.std.specs.List.{list_all};
ghost use Rattle.fibs_fields.specs.Word.{is_word, is_tail};

use crate::dash::is_dash;

/// A word of a message: 1 or more bytes, none of them a space. It borrows them.
#[derive(Clone, Copy, Debug, PartialEq, Eq)]
pub struct Word<'a> {
    bytes: &'a [u8],
    pub ghost valid: { is_word bytes.now ≡ true },
}

/// The end of a message: 1 or more bytes, the last of them not a space. It borrows them.
#[derive(Clone, Copy, Debug, PartialEq, Eq)]
pub struct Tail<'a> {
    bytes: &'a [u8],
    pub ghost valid: { is_tail bytes.now ≡ true },
}

fn has_no_space(bytes: &[u8]) -> bool
    ensures { result ≡ list_all (λ c. not (c == 32)) bytes.now }
{
    bytes.iter().all(|byte| *byte != b' ')
}

impl<'a> Word<'a> {
    ghost use Rattle.fibs_fields.specs.Bytes.{word_bytes};

    /// The bytes as a word, if they are one.
    pub fn new(bytes: &'a [u8]) -> Option<Word<'a>>
        ensures test { IsSome result ↔ (is_word bytes.now ≡ true) }
        ensures value { IfSome result (λ word. word_bytes word ≡ bytes.now) }
    {
        if !bytes.is_empty() && has_no_space(bytes) {
            Some(Word { bytes })
        } else {
            None
        }
    }

    /// The bytes of the word.
    pub fn bytes(&self) -> &'a [u8]
        ensures value { result.now ≡ word_bytes self.now }
        ensures valid { is_word result.now ≡ true }
    {
        self.bytes
    }

    /// Whether it is `-`, which means none.
    pub fn is_dash(&self) -> bool
        ensures { IsTrue result ↔ (word_bytes self.now ≡ codes "-") }
    {
        is_dash(self.bytes)
    }
}

impl<'a> Tail<'a> {
    ghost use Rattle.fibs_fields.specs.Bytes.{tail_bytes};

    /// The bytes as a tail, if they are one.
    pub fn new(bytes: &'a [u8]) -> Option<Tail<'a>>
        ensures test { IsSome result ↔ (is_tail bytes.now ≡ true) }
        ensures value { IfSome result (λ tail. tail_bytes tail ≡ bytes.now) }
    {
        if !bytes.is_empty() && bytes[bytes.len() - 1] != b' ' {
            Some(Tail { bytes })
        } else {
            None
        }
    }

    /// The bytes of the tail.
    pub fn bytes(&self) -> &'a [u8]
        ensures value { result.now ≡ tail_bytes self.now }
        ensures valid { is_tail result.now ≡ true }
    {
        self.bytes
    }

    /// Whether it is `-`, which means none.
    pub fn is_dash(&self) -> bool
        ensures { IsTrue result ↔ (tail_bytes self.now ≡ codes "-") }
    {
        is_dash(self.bytes)
    }
}
