//! A line that the user typed.

use arrayvec::ArrayVec;

/// The longest line that may be typed.
pub const TYPED_LIMIT: usize = 4096;

/// How many bytes of a line are kept: one more than a line may have, which shows that it is too long.
pub const KEPT: usize = TYPED_LIMIT + 1;

/// One byte more than is kept of a line, since it may be the CR before the line end.
const ROOM: usize = KEPT + 1;

/// The bytes of a typed line.
pub type TypedLine = ArrayVec<u8, ROOM>;
