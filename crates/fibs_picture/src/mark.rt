//! The marks of cells.
ghost use Rattle.std.specs.Prelude.{◌≡◌, ◌++◌, ◌<◌, OnOk};
ghost use Rattle.fibs_picture.specs.Marks.{is_arrived, before, after, marked};

use crate::ink::MOST_SEEN;
use std::alloc::AllocError;

/// How many checkers of the opponent have come to each place, by the player's own numbering.
pub type Arrivals = [u8; 25];

/// None has come.
pub const NO_ARRIVALS: Arrivals = [0; 25];

/// How a cell is marked.
#[derive(Clone, Copy, Debug, PartialEq, Eq)]
pub enum Mark {
    /// Not at all.
    Plain,
    /// As the player's: bold.
    Own,
    /// As a checker that has come by the opponent's last move: in a colour.
    Arrived,
}

/// Whether what stands at a height of a place has come: of so many checkers of the opponent the innermost ones.
pub fn is_arrived(come: u8, there: u8, height: u8) -> bool
    ensures { result ≡ is_arrived come there height }
{
    let seen = if there < MOST_SEEN { there } else { MOST_SEEN };
    height <= seen && seen - height < come
}

/// What is written before a marked byte.
fn before(mark: Mark) -> &'static [u8]
    ensures { result.now ≡ before mark }
{
    match mark {
        Mark::Plain => b"",
        Mark::Own => b"\x1b[1m",
        Mark::Arrived => b"\x1b[35m",
    }
}

/// What is written after it.
fn after(mark: Mark) -> &'static [u8]
    ensures { result.now ≡ after mark }
{
    match mark {
        Mark::Plain => b"",
        Mark::Own | Mark::Arrived => b"\x1b[0m",
    }
}

/// Appends a marked byte.
#[tactic(auto, unfolding(crate::specs::Marks::marked))]
pub fn append_marked(byte: u8, mark: Mark, text: &mut Vec<u8>) -> Result<(), AllocError>
    ensures { OnOk result (text.new.items ≡ text.old.items ++ marked mark byte) }
{
    text.extend_from_slice(before(mark))?;
    text.extend_from_slice(&[byte])?;
    text.extend_from_slice(after(mark))
}
