//! Lines that the server sends.

/// The first messages of a connection.
pub const WELCOME: &[u8] = b"1 ann 1041253132 localhost\r\n";

pub const SETTINGS: &[u8] = b"2 ann 1 1 0 0 0 0 1 1 0 0 1 0 1 1500.00 0 0 none 0 0 UTC\r\n";

/// A board before its roll, on which a double may be offered.
pub const TO_ROLL: &[u8] =
    b"board:You:bob:3:0:1:0:-2:0:0:0:0:5:0:3:0:0:0:-5:5:0:0:0:-3:0:-5:0:0:0:0:2:0:\
    1:0:0:0:0:1:1:1:0:1:-1:0:25:0:0:0:0:2:0:0:0\r\n";

/// The same board with dice.
pub const TO_MOVE: &[u8] =
    b"board:You:bob:3:0:1:0:-2:0:0:0:0:5:0:3:0:0:0:-5:5:0:0:0:-3:0:-5:0:0:0:0:2:0:\
    1:6:2:0:0:1:1:1:0:1:-1:0:25:0:0:0:0:2:0:0:0\r\n";

/// The board after the move, on which the opponent has the turn.
pub const MOVED: &[u8] =
    b"board:You:bob:3:0:1:0:-2:0:0:0:0:5:0:3:0:0:0:-5:5:0:0:0:-3:1:-5:0:0:0:0:1:0:\
    -1:0:0:0:0:1:1:1:0:1:-1:0:25:0:0:0:0:0:0:0:0\r\n";
