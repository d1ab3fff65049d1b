//! Parts of objects.
ghost use Rattle.std.specs.Prelude.{◌≡◌, ◌++◌, ℕ, List, OnOk, codes};
ghost use Rattle.fibs_engine.specs.Printing.{line_bytes};

use std::alloc::AllocError;

/// A line without the byte that ends it.
pub(crate) fn without_end(line: &[u8]) -> &[u8]
    ensures { (text : List ℕ) → line.now ≡ line_bytes text → result.now ≡ text }
{
    &line[..line.len().saturating_sub(1)]
}

/// Appends the end of an object, and a line end.
pub(crate) fn append_end(text: &mut Vec<u8>) -> Result<(), AllocError>
    ensures { OnOk result (text.new.items ≡ text.old.items ++ codes "}\n") }
{
    text.extend_from_slice(b"}\n")
}
