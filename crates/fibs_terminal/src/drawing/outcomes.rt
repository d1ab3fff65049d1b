//! How a game ended, in words.
ghost use Rattle.std.specs.Prelude.{◌≡◌, ◌++◌, ◌≤ℤ◌, OnOk, pos};
ghost use Rattle.std.specs.Option.{option_copied, option_map};
ghost use Rattle.fibs_fields.specs.StoredBoard.{fields_of};
ghost use Rattle.fibs_terminal.specs.Outcomes.{ending, ending_if, final_words, gain_words, gained, gained_words, is_off, is_times, is_won, length_words, lost_points, match_row, other_row, other_score, outcome_words, own_row, score_in, score_or_match, score_row, scores_words, unknown_row, win_words, winner, won_row, won_words};

use crate::drawing::ending::{Ending, append_match_label, append_points};
use fibs_fields::boards::Board;
use fibs_fields::boards::fields::{
    CUBE, MATCH_LENGTH, OTHER_OFF, OTHER_SCORE, OWN_OFF, OWN_SCORE, UNLIMITED,
};
use fibs_fields::decimal::append_number;
use fibs_wording::environment::pieces::{break_row, short_name};
use std::alloc::AllocError;

/// The points of a side on a board.
#[tactic(auto, unfolding(fibs_fields::specs::Board::field_values))]
fn score_in(board: &Board, is_own: bool) -> i32
    ensures value { result ≡ score_in (fields_of board.now) is_own }
    ensures least { pos 0 ≤ℤ result }
    ensures most { result ≤ℤ pos 99999999 }
{
    if is_own {
        board.field(OWN_SCORE)
    } else {
        board.field(OTHER_SCORE)
    }
}

/// Whether a side has borne off all of its checkers.
fn is_off(board: &Board, is_own: bool) -> bool
    ensures { result ≡ is_off (fields_of board.now) is_own }
{
    if is_own {
        board.field(OWN_OFF) == 15
    } else {
        board.field(OTHER_OFF) == 15
    }
}

/// How many points a side has won since an earlier board.
#[tactic(auto, unfolding(crate::specs::Outcomes::gained))]
fn gained(before: Option<&Board>, after: &Board, is_own: bool) -> i32
    ensures { result ≡ gained (option_map fields_of (option_copied before.entry)) (fields_of after.now) is_own }
{
    match before {
        None => 0,
        Some(before) => score_in(after, is_own) - score_in(before, is_own),
    }
}

/// Whether a game was won for twice the points that the cube shows.
fn is_gammon(points: i32, cube: i32) -> bool
    ensures { result ≡ is_times (pos 2) points cube }
{
    i64::from(points) == 2 * i64::from(cube)
}

/// Whether it was for three times those.
fn is_backgammon(points: i32, cube: i32) -> bool
    ensures { result ≡ is_times (pos 3) points cube }
{
    i64::from(points) == 3 * i64::from(cube)
}

/// What a game was won by: the points for each that the cube shows.
#[tactic(auto, unfolding(crate::specs::Outcomes::win_words))]
fn win_words(points: i32, cube: i32) -> &'static [u8]
    ensures { result.now ≡ win_words points cube }
{
    if is_gammon(points, cube) {
        b" by a gammon"
    } else if is_backgammon(points, cube) {
        b" by a backgammon"
    } else {
        b""
    }
}

/// Who has won.
#[derive(Clone, Copy)]
enum Winner {
    Own,
    Other,
    Unknown,
}

/// Who has won a game that is over, by the scores, else by the checkers borne off.
#[tactic(auto, unfolding(crate::specs::Outcomes::winner))]
fn who_won(before: Option<&Board>, after: &Board) -> Winner
    ensures { result ≡ winner (option_map fields_of (option_copied before.entry)) (fields_of after.now) }
{
    if gained(before, after, true) > 0 {
        Winner::Own
    } else if gained(before, after, false) > 0 {
        Winner::Other
    } else if is_off(after, true) {
        Winner::Own
    } else if is_off(after, false) {
        Winner::Other
    } else {
        Winner::Unknown
    }
}

/// Appends by what and for how many points a game was won.
#[tactic(auto, unfolding(crate::specs::Outcomes::gained_words))]
fn append_gained(points: i32, cube: i32, text: &mut Vec<u8>) -> Result<(), AllocError>
    ensures { OnOk result (text.new.items ≡ text.old.items ++ gained_words points cube) }
{
    text.extend_from_slice(win_words(points, cube))?;
    text.extend_from_slice(b", and ")?;
    append_points(points.unsigned_abs(), text)
}

/// Appends the same, if it is known.
fn append_gain(points: i32, cube: i32, text: &mut Vec<u8>) -> Result<(), AllocError>
    ensures { OnOk result (text.new.items ≡ text.old.items ++ gain_words points cube) }
{
    if points > 0 {
        return append_gained(points, cube, text);
    }
    Ok(())
}

/// Appends the game that was won, by what and for how many points.
#[tactic(auto, unfolding(crate::specs::Outcomes::won_words))]
fn append_won(points: i32, cube: i32, text: &mut Vec<u8>) -> Result<(), AllocError>
    ensures { OnOk result (text.new.items ≡ text.old.items ++ won_words points cube) }
{
    text.extend_from_slice(b" the game")?;
    append_gain(points, cube, text)
}

/// Appends the opponent's points, behind his name.
#[tactic(auto, unfolding(crate::specs::Outcomes::other_score))]
fn append_other_score(board: &Board, text: &mut Vec<u8>) -> Result<(), AllocError>
    ensures { OnOk result (text.new.items ≡ text.old.items ++ other_score (fields_of board.now)) }
{
    text.extend_from_slice(short_name(board.opponent().bytes()))?;
    text.extend_from_slice(b" ")?;
    append_number(score_in(board, false).unsigned_abs(), text)
}

/// Appends the points of both sides.
#[tactic(auto, unfolding(crate::specs::Outcomes::scores_words))]
fn append_scores(board: &Board, text: &mut Vec<u8>) -> Result<(), AllocError>
    ensures { OnOk result (text.new.items ≡ text.old.items ++ scores_words (fields_of board.now)) }
{
    text.extend_from_slice(b". You ")?;
    append_number(score_in(board, true).unsigned_abs(), text)?;
    text.extend_from_slice(b", ")?;
    append_other_score(board, text)
}

/// Appends the length of the match, if it has one.
#[tactic(auto, unfolding(crate::specs::Outcomes::length_words))]
fn append_length(board: &Board, text: &mut Vec<u8>) -> Result<(), AllocError>
    ensures { OnOk result (text.new.items ≡ text.old.items ++ length_words (fields_of board.now)) }
{
    let length = board.field(MATCH_LENGTH);
    if length == UNLIMITED {
        return Ok(());
    }
    text.extend_from_slice(b" of ")?;
    append_number(length.unsigned_abs(), text)
}

/// Appends the score, and the length of the match.
#[tactic(auto, unfolding(crate::specs::Outcomes::score_row))]
fn append_score(board: &Board, text: &mut Vec<u8>) -> Result<(), AllocError>
    ensures { OnOk result (text.new.items ≡ text.old.items ++ score_row (fields_of board.now)) }
{
    append_scores(board, text)?;
    append_length(board, text)?;
    text.extend_from_slice(b".")
}

/// Appends that the user has won, and by what.
#[tactic(auto, unfolding(crate::specs::Outcomes::own_row))]
fn append_own_win(points: i32, cube: i32, text: &mut Vec<u8>) -> Result<(), AllocError>
    ensures { OnOk result (text.new.items ≡ text.old.items ++ own_row points cube) }
{
    text.extend_from_slice(b"You win")?;
    append_won(points, cube, text)
}

/// Appends that his opponent has.
#[tactic(auto, unfolding(crate::specs::Outcomes::other_row))]
fn append_other_win(
    opponent: &[u8],
    points: i32,
    cube: i32,
    text: &mut Vec<u8>,
) -> Result<(), AllocError>
    ensures { OnOk result (text.new.items ≡ text.old.items ++ other_row opponent.now points cube) }
{
    text.extend_from_slice(short_name(opponent))?;
    text.extend_from_slice(b" wins")?;
    append_won(points, cube, text)
}

/// Appends that nobody knows who has.
#[tactic(auto, unfolding(crate::specs::Outcomes::unknown_row))]
fn append_unknown(text: &mut Vec<u8>) -> Result<(), AllocError>
    ensures { OnOk result (text.new.items ≡ text.old.items ++ unknown_row) }
{
    text.extend_from_slice(b"The game is over")
}

/// Appends who has won, and by what.
fn append_winner(
    before: Option<&Board>,
    board: &Board,
    text: &mut Vec<u8>,
) -> Result<(), AllocError>
    ensures { OnOk result (text.new.items ≡ text.old.items ++
        won_row (option_map fields_of (option_copied before.entry)) (fields_of board.now)) }
{
    let cube = board.field(CUBE);
    match who_won(before, board) {
        Winner::Own => append_own_win(gained(before, board, true), cube, text),
        Winner::Other => {
            let points = gained(before, board, false);
            append_other_win(board.opponent().bytes(), points, cube, text)
        }
        Winner::Unknown => append_unknown(text),
    }
}

/// Whether a match is over in which a side has won a game.
fn is_won(board: &Board, is_own: bool) -> bool
    ensures { result ≡ is_won (fields_of board.now) is_own }
{
    let length = board.field(MATCH_LENGTH);
    length != UNLIMITED && score_in(board, is_own) >= length
}

/// How a game has ended that a side has won, if it is known for how many points.
fn ending_if(before: Option<&Board>, board: &Board, is_own: bool) -> Option<Ending>
    ensures { result ≡ ending_if (option_map fields_of (option_copied before.entry)) (fields_of board.now) is_own }
{
    let points = gained(before, board, is_own);
    if points > 0 {
        return Some(Ending {
            is_own,
            points: points.unsigned_abs(),
            is_match: is_won(board, is_own),
            length: board.field(MATCH_LENGTH).unsigned_abs(),
            won: score_in(board, is_own).unsigned_abs(),
            lost: score_in(board, !is_own).unsigned_abs(),
        });
    }
    None
}

/// How the game of a board has ended, by the board that was shown before it, if it is known who has won and how many
/// points.
pub fn ending_of(before: Option<&Board>, board: &Board) -> Option<Ending>
    ensures { result ≡ ending (option_map fields_of (option_copied before.entry)) (fields_of board.now) }
{
    match who_won(before, board) {
        Winner::Own => ending_if(before, board, true),
        Winner::Other => ending_if(before, board, false),
        Winner::Unknown => None,
    }
}

/// Appends the points of who has lost a match.
#[tactic(auto, unfolding(crate::specs::Outcomes::lost_points))]
fn append_lost(lost: u32, text: &mut Vec<u8>) -> Result<(), AllocError>
    ensures { OnOk result (text.new.items ≡ text.old.items ++ lost_points lost) }
{
    text.extend_from_slice(b"-")?;
    append_number(lost, text)?;
    text.extend_from_slice(b".")
}

/// Appends the points of both in a match that is over.
#[tactic(auto, unfolding(crate::specs::Outcomes::final_words))]
fn append_final(ending: &Ending, text: &mut Vec<u8>) -> Result<(), AllocError>
    ensures { OnOk result (text.new.items ≡ text.old.items ++ final_words ending.now) }
{
    append_match_label(text)?;
    append_number(ending.won, text)?;
    append_lost(ending.lost, text)
}

/// Appends that the match is over, by how many points.
#[tactic(auto, unfolding(crate::specs::Outcomes::match_row))]
fn append_match(ending: &Ending, text: &mut Vec<u8>) -> Result<(), AllocError>
    ensures { OnOk result (text.new.items ≡ text.old.items ++ match_row ending.now) }
{
    text.extend_from_slice(b", and the ")?;
    append_number(ending.length, text)?;
    append_final(ending, text)
}

/// Appends the score, or that of the match if the game has ended it.
fn append_score_or_match(
    ending: Option<Ending>,
    board: &Board,
    text: &mut Vec<u8>,
) -> Result<(), AllocError>
    ensures { OnOk result (text.new.items ≡ text.old.items ++ score_or_match ending (fields_of board.now)) }
{
    match ending {
        Some(ending) if ending.is_match => append_match(&ending, text),
        _ => append_score(board, text),
    }
}

/// Appends in one row how the game of a board has ended. Answers where the score follows, or the end of the match.
fn append_row(
    before: Option<&Board>,
    board: &Board,
    text: &mut Vec<u8>,
) -> Result<usize, AllocError>
    ensures { OnOk result (text.new.items ≡ text.old.items ++
        outcome_words (option_map fields_of (option_copied before.entry)) (fields_of board.now)) }
{
    append_winner(before, board, text)?;
    let end = text.len();
    append_score_or_match(ending_of(before, board), board, text)?;
    Ok(end)
}

/// Appends how the game of a board has ended, by the board that was shown before it. The board says that it is over.
/// The score, or that of the match if that is over, has a row of its own if the names are long.
pub fn append_outcome(
    before: Option<&Board>,
    board: &Board,
    text: &mut Vec<u8>,
) -> Result<(), AllocError> {
    let start = text.len();
    let end = append_row(before, board, text)?;
    break_row(start, end.saturating_add(1), text);
    Ok(())
}
