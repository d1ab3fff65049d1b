//! How a game has ended, and the texts by which the server says the same.
ghost use Rattle.std.specs.Prelude.{◌≡◌, ◌++◌, IfOk, IsTrue, OnOk};
ghost use Rattle.fibs_terminal.specs.Endings.{end_words, game_words, gets_words, is_ending, lost_words, match_label, match_won_words, match_words, points_words, score_words, winner_words, won_words};

use fibs_fields::decimal::append_number;
use std::alloc::{AllocError, Global};

/// How a game has ended, as a row has told it.
#[derive(Clone, Copy)]
pub struct Ending {
    /// Whether the user has won; else his opponent has.
    pub is_own: bool,
    /// For how many points.
    pub points: u32,
    /// Whether the match is over by it.
    pub is_match: bool,
    /// The length of the match.
    pub length: u32,
    /// The points of who has won, in the match.
    pub won: u32,
    /// Those of who has lost.
    pub lost: u32,
}

/// Appends who has won, and the word for it: of the user one, of the opponent another.
fn append_winner(ending: &Ending, opponent: &[u8], text: &mut Vec<u8>) -> Result<(), AllocError>
    ensures { OnOk result (text.new.items ≡ text.old.items ++ winner_words ending.now.is_own opponent.now) }
{
    if ending.is_own {
        return text.extend_from_slice(b"You win");
    }
    text.extend_from_slice(opponent)?;
    text.extend_from_slice(b" wins")
}

/// Appends points.
pub fn append_points(points: u32, text: &mut Vec<u8>) -> Result<(), AllocError>
    ensures { OnOk result (text.new.items ≡ text.old.items ++ points_words points) }
{
    append_number(points, text)?;
    text.extend_from_slice(if points == 1 { b" point" } else { b" points" })
}

/// Appends what follows who has won a game, before its points.
fn append_gets(is_own: bool, text: &mut Vec<u8>) -> Result<(), AllocError>
    ensures { OnOk result (text.new.items ≡ text.old.items ++ gets_words is_own) }
{
    if is_own {
        text.extend_from_slice(b" the game and get ")
    } else {
        text.extend_from_slice(b" the game and gets ")
    }
}

/// Appends what follows the points.
fn append_end(is_own: bool, text: &mut Vec<u8>) -> Result<(), AllocError>
    ensures { OnOk result (text.new.items ≡ text.old.items ++ end_words is_own) }
{
    if is_own {
        text.extend_from_slice(b". Congratulations!")
    } else {
        text.extend_from_slice(b". Sorry.")
    }
}

/// Appends what follows who has won a game.
#[tactic(auto, unfolding(crate::specs::Endings::won_words))]
fn append_won(ending: &Ending, text: &mut Vec<u8>) -> Result<(), AllocError>
    ensures { OnOk result (text.new.items ≡ text.old.items ++ won_words ending.now) }
{
    append_gets(ending.is_own, text)?;
    append_points(ending.points, text)?;
    append_end(ending.is_own, text)
}

/// Appends how the server says that a game has ended so.
fn append_game(ending: &Ending, opponent: &[u8], text: &mut Vec<u8>) -> Result<(), AllocError>
    ensures { OnOk result (text.new.items ≡ text.old.items ++ game_words ending.now opponent.now) }
{
    append_winner(ending, opponent, text)?;
    append_won(ending, text)
}

/// Appends the points of who has lost.
#[tactic(auto, unfolding(crate::specs::Endings::lost_words))]
fn append_lost(lost: u32, text: &mut Vec<u8>) -> Result<(), AllocError>
    ensures { OnOk result (text.new.items ≡ text.old.items ++ lost_words lost) }
{
    text.extend_from_slice(b"-")?;
    append_number(lost, text)?;
    text.extend_from_slice(b" .")
}

/// Appends what follows the length of a match.
#[tactic(auto, unfolding(crate::specs::Endings::match_label))]
pub fn append_match_label(text: &mut Vec<u8>) -> Result<(), AllocError>
    ensures { OnOk result (text.new.items ≡ text.old.items ++ match_label) }
{
    text.extend_from_slice(b" point match ")
}

/// Appends the points of both.
#[tactic(auto, unfolding(crate::specs::Endings::score_words))]
fn append_score(ending: &Ending, text: &mut Vec<u8>) -> Result<(), AllocError>
    ensures { OnOk result (text.new.items ≡ text.old.items ++ score_words ending.now) }
{
    append_match_label(text)?;
    append_number(ending.won, text)?;
    append_lost(ending.lost, text)
}

/// Appends what follows who has won a match.
#[tactic(auto, unfolding(crate::specs::Endings::match_won_words))]
fn append_match_won(ending: &Ending, text: &mut Vec<u8>) -> Result<(), AllocError>
    ensures { OnOk result (text.new.items ≡ text.old.items ++ match_won_words ending.now) }
{
    text.extend_from_slice(b" the ")?;
    append_number(ending.length, text)?;
    append_score(ending, text)
}

/// Appends how the server says that a match has ended so.
fn append_match(ending: &Ending, opponent: &[u8], text: &mut Vec<u8>) -> Result<(), AllocError>
    ensures { OnOk result (text.new.items ≡ text.old.items ++ match_words ending.now opponent.now) }
{
    append_winner(ending, opponent, text)?;
    append_match_won(ending, text)
}

impl Ending {
    /// Whether a text of the server says this ending, of a game with this opponent: it is told again, and compared.
    ///
    /// Errors: if memory runs out.
    pub fn tells(&self, alloc: Global, opponent: &[u8], said: &[u8]) -> Result<bool, AllocError>
        ensures { IfOk result (λ tells. IsTrue tells → is_ending self.now opponent.now said.now) }
    {
        let mut game = Vec::new(alloc);
        append_game(self, opponent, &mut game)?;
        if game.as_slice() == said {
            return Ok(true);
        }
        if !self.is_match {
            return Ok(false);
        }
        let mut whole = Vec::new(alloc);
        append_match(self, opponent, &mut whole)?;
        Ok(whole.as_slice() == said)
    }
}
