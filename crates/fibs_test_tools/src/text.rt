//! What is read or printed, without memory, so that each growth that a test sees refused is the engine's.

use arrayvec::ArrayVec;

/// The most bytes of a text: more than a line has that is printed whole.
pub const TEXT_ROOM: usize = 20_480;

/// At most `TEXT_ROOM` bytes.
pub type Text = ArrayVec<u8, TEXT_ROOM>;

/// These parts, one after another.
pub fn joined(parts: &[&[u8]]) -> Text {
    let mut text = Text::new();
    for part in parts {
        let _fits = text.try_extend_from_slice(part);
    }
    text
}

/// These bytes.
pub fn text_of(bytes: &[u8]) -> Text {
    joined(&[bytes])
}
