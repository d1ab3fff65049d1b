//! What a text is made of.
ghost use Rattle.std.specs.Prelude.{◌≡◌, take};

use std::alloc::AllocError;

/// Appends pieces, one after another.
pub fn append_all(pieces: &[&[u8]], text: &mut Vec<u8>) -> Result<(), AllocError> {
    for piece in pieces {
        text.extend_from_slice(piece)?;
    }
    Ok(())
}

/// The columns of a row.
const COLUMNS: usize = 79;

/// Makes two rows of one that begins at `start`, if it is wider than a terminal: the space at `place` ends the first.
pub fn break_row(start: usize, place: usize, text: &mut Vec<u8>) {
    if text.len().saturating_sub(start) > COLUMNS && place < text.len() {
        text[place] = b'\n';
    }
}

/// What is shown of a name in a row: 24 bytes of it at most.
pub fn short_name(name: &[u8]) -> &[u8]
    ensures { result.now ≡ take 24 name.now }
{
    &name[..name.len().min(24)]
}
