//! What a terminal is.

use crate::environment::zone::Zone;
use fibs_position::Numbers;

/// What kind of terminal it is, as the environment says, and the address of the server.
#[derive(Clone, Copy)]
pub struct Settings<'a> {
    /// How many columns a line may have.
    pub columns: usize,
    /// How many rows it has; 0 if that is not known.
    pub rows: usize,
    /// Whether its lower rows can scroll while the upper ones stay.
    pub scrolls_below: bool,
    /// Whether the newest board stands above what is said, if the user has said so.
    pub above: Option<bool>,
    /// Whether it shows bold letters.
    pub colour: bool,
    /// Whether the bell may ring.
    pub bell: bool,
    /// Whether the title of its window may say whose turn it is.
    pub title: bool,
    /// The letters of the player's checkers and of the opponent's, if they are not O and X.
    pub letters: Option<[u8; 2]>,
    /// Whether the player's home is above in a picture.
    pub is_turned: bool,
    /// Whose numbers the places have.
    pub numbers: Numbers,
    /// Whether a board is told in words, in place of its picture.
    pub words: bool,
    /// Whether of a board in words only what is new is told, if it comes by itself.
    pub is_short: bool,
    /// Whether it shows letters beyond ASCII, as UTF-8.
    pub utf8: bool,
    /// The clock of the place.
    pub zone: Zone<'a>,
    /// The server's name.
    pub host: &'a [u8],
    /// The server's port.
    pub port: u16,
}
