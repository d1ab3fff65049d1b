//! The blots of both sides.
ghost use Rattle.std.specs.Prelude.{OnOk, codes};
ghost use Rattle.std.specs.Io.KnownBytes.{Appends};
ghost use Rattle.fibs_position.specs.PositionValue.{position_value};
ghost use Rattle.fibs_picture.specs.InWords.Words.{both_blots, blots_of, blots_row};
ghost use Rattle.fibs_picture.specs.InWords.Watched.{blots_named};
ghost use Rattle.fibs_picture.specs.declared.in_words.listed.Listed.TheVariants as L;

use crate::in_words::listed::{Listed, write_numbers};
use crate::writing::write_text;
use fibs_position::{Direction, Position};
use std::io;
use std::io::Write;

/// Writes a side's blots, after what says whose they are.
#[tactic(auto, unfolding(crate::specs::InWords::Words::blots_of))]
fn write_blots_of<W: Write>(
    name: &[u8],
    words: &[u8],
    direction: Direction,
    position: &Position,
    which: Listed,
    out: &mut W,
) -> io::Result<()>
    ensures { OnOk result (Appends (W.contents out.old) (W.contents out.new)
        (blots_of direction (position_value position.now).standing.checkers which name.now words.now)) }
{
    write_text(name, out)?;
    write_text(words, out)?;
    write_numbers(direction, position, which, out)
}

/// Writes the blots of both sides: the player's after these words, the opponent's after his name.
fn write_both<W: Write>(
    player: &[u8],
    words: &[u8],
    opponent: &[u8],
    direction: Direction,
    position: &Position,
    out: &mut W,
) -> io::Result<()>
    ensures { let c = (position_value position.now).standing.checkers in
        OnOk result (Appends (W.contents out.old) (W.contents out.new)
        (both_blots (blots_of direction c L.OwnBlots player.now words.now)
        (blots_of direction c L.OtherBlots opponent.now (codes "'s ")))) }
{
    write_text(b"Blots: ", out)?;
    write_blots_of(player, words, direction, position, Listed::OwnBlots, out)?;
    write_text(b"; ", out)?;
    write_blots_of(
        opponent,
        b"'s ",
        direction,
        position,
        Listed::OtherBlots,
        out,
    )?;
    write_text(b".", out)
}

/// Writes the blots of the player, and of the opponent by his name.
#[tactic(auto, unfolding(crate::specs::InWords::Words::blots_row))]
pub(crate) fn write_blots_row<W: Write>(
    direction: Direction,
    position: &Position,
    opponent: &[u8],
    out: &mut W,
) -> io::Result<()>
    ensures { OnOk result (Appends (W.contents out.old) (W.contents out.new)
        (blots_row direction (position_value position.now).standing.checkers opponent.now)) }
{
    write_both(b"yours", b" ", opponent, direction, position, out)
}

/// Writes the blots of both by their names.
#[tactic(auto, unfolding(crate::specs::InWords::Watched::blots_named))]
pub(crate) fn write_named_blots<W: Write>(
    direction: Direction,
    position: &Position,
    player: &[u8],
    opponent: &[u8],
    out: &mut W,
) -> io::Result<()>
    ensures { OnOk result (Appends (W.contents out.old) (W.contents out.new)
        (blots_named direction (position_value position.now).standing.checkers player.now opponent.now)) }
{
    write_both(player, b"'s ", opponent, direction, position, out)
}
