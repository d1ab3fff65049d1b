//! Spaces at the end of a line.

ghost use Rattle.std.specs.Prelude.{◌≡◌, ◌++◌, ℕ, replicate};
ghost use Rattle.fibs_fields.specs.Spaces.{without_spaces};

use bstr::ByteSlice;

/// The line without the spaces at its end.
pub fn without_spaces(line: &[u8]) -> &[u8]
    ensures value { result.now ≡ without_spaces line.now }
    ensures spaces { (n : ℕ) × (line.now ≡ result.now ++ replicate n 32) }
{
    // Nearly every line ends in another byte.
    let len = line.len();
    if len > 0 && line[len - 1] != b' ' {
        return line;
    }
    match line.rfind_not_byteset(b" ") {
        Some(last) => &line[..last + 1],
        None => &line[..0],
    }
}
