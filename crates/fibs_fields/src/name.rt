//! Names of players.

ghost use Rattle.std.specs.Prelude.{◌≡◌, ◌==◌, true, IsSome, IsTrue, ◌↔◌, IfSome, Some, codes};
ghost use Rattle.std.specs.List.{list_all, prefix_len};
ghost use Rattle.fibs_fields.specs.Name.{is_name, is_name_byte};
ghost use Rattle.fibs_fields.specs.Split.{before, after};

use crate::dash::is_dash;
use crate::runs::run_of;

/// The name of a player, borrowed: 1 to 64 printable bytes of ASCII (33 to 126) without a colon.
#[derive(Clone, Copy, Debug, PartialEq, Eq)]
pub struct Name<'a> {
    bytes: &'a [u8],
    pub ghost valid: { is_name bytes.now ≡ true },
}

/// Whether it is printable ASCII other than a colon.
fn is_name_byte(byte: &u8) -> bool
    ensures { result ≡ is_name_byte byte.now }
{
    *byte >= 33 && *byte <= 126 && *byte != b':'
}

/// How many bytes at the front of a text a name may have.
#[inline(always)]
pub fn name_run(text: &[u8]) -> usize
    ensures { result ≡ prefix_len is_name_byte text.now }
{
    run_of(text, 33, 126, b':')
}

/// True if each byte may be in a name.
fn are_name_bytes(bytes: &[u8]) -> bool
    ensures { result ≡ list_all is_name_byte bytes.now }
{
    bytes.iter().all(is_name_byte)
}

impl<'a> Name<'a> {
    ghost use Rattle.fibs_fields.specs.Bytes.{name_bytes};

    /// The bytes as a name. None if there is no byte, there are more than 64, or one is not 33 to 126, or is a
    /// colon.
    pub fn new(bytes: &'a [u8]) -> Option<Name<'a>>
        ensures test { IsSome result ↔ (is_name bytes.now ≡ true) }
        ensures value { IfSome result (λ name. name_bytes name ≡ bytes.now) }
    {
        if !bytes.is_empty() && bytes.len() <= 64 && are_name_bytes(bytes) {
            Some(Name { bytes })
        } else {
            None
        }
    }

    /// The bytes, which are a name.
    pub fn of_valid(bytes: &'a [u8]) -> Name<'a>
        requires { is_name bytes.now ≡ true }
        ensures { name_bytes result ≡ bytes.now }
    {
        Name { bytes }
    }

    /// The name at the front of a text and what follows the byte after it, if that is this one, which no name has.
    #[inline(always)]
    pub(crate) fn before(text: &'a [u8], byte: u8) -> Option<(Name<'a>, &'a [u8])>
        ensures name { IfSome result (λ x. name_bytes x.0 ≡ before byte text.now) }
        ensures valid { IfSome result (λ x. is_name (before byte text.now) ≡ true) }
        ensures rest { IfSome result (λ x. Some x.1.now ≡ after byte text.now) }
    {
        let len = name_run(text);
        if len == 0 || len > 64 || len >= text.len() || text[len] != byte || is_name_byte(&byte) {
            return None;
        }
        Some((Name::of_valid(&text[..len]), &text[len + 1..]))
    }

    /// Its bytes.
    pub fn bytes(&self) -> &'a [u8]
        ensures value { result.now ≡ name_bytes self.now }
        ensures valid { is_name result.now ≡ true }
    {
        self.bytes
    }

    /// Whether it is `-`, which means that there is none.
    pub fn is_dash(&self) -> bool
        ensures { IsTrue result ↔ (name_bytes self.now ≡ codes "-") }
    {
        is_dash(self.bytes)
    }
}
