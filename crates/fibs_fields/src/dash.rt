//! The dash that means that there is none.

ghost use Rattle.std.specs.Prelude.{◌≡◌, IsTrue, ◌↔◌, codes};

/// Whether the bytes are `-`.
pub(crate) fn is_dash(bytes: &[u8]) -> bool
    ensures { IsTrue result ↔ (bytes.now ≡ codes "-") }
{
    bytes.len() == 1 && bytes[0] == b'-'
}
