//! Points of games and of matches.

ghost use Rattle.std.specs.Prelude.{◌≡◌, ◌≤◌, ◌==◌, ◌*◌, ◌<◌, IfSome, IfNone, option_map};
ghost use Rattle.std.specs.Option.{option_copied};
ghost use Rattle.fibs_fields.specs.Board.{field_of};
ghost use Rattle.fibs_fields.specs.FieldReading.{natural};
ghost use Rattle.fibs_fields.specs.StoredBoard.{fields_of};
ghost use Rattle.fibs_position.specs.GameOf.{game_of};
ghost use Rattle.fibs_events.specs.Ends.{GameWon, MatchWon, NoMatchWon, cube_of, is_alike, is_same_match, is_same_score, keeps_points, score_of, scores_of, taker_of, worth_in, worth_of};

use crate::event::Side;
use crate::happened::{Won, WonMatch};
use fibs_fields::boards::Board;
use fibs_fields::boards::fields::{
    CUBE, MATCH_LENGTH, MAY_DOUBLE, OTHER_MAY_DOUBLE, OTHER_SCORE, OWN_SCORE, UNLIMITED,
};
use fibs_position::{GameBoard, Stake};

/// A number of a field that is never negative.
fn number(board: &Board, field: usize) -> u32
    requires low { 4 ≤ field }
    requires high { field ≤ 53 }
    ensures { result ≡ natural (field_of (fields_of board.now) field) }
{
    u32::try_from(board.field(field)).unwrap_or(0)
}

/// What so many points are on the cube of a board.
fn worth_on(points: u32, game: &GameBoard) -> Option<Stake>
    ensures { result ≡ worth_of points (cube_of (game_of game.now)) }
{
    let points = u64::from(points);
    let cube = u64::from(number(game.board(), CUBE));
    if points == cube {
        Some(Stake::Normal)
    } else if points == cube * 2 {
        Some(Stake::Gammon)
    } else if points == cube * 3 {
        Some(Stake::Backgammon)
    } else {
        None
    }
}

/// What so many points are on the cube of a game, if a board of it is known.
pub(crate) fn worth(points: u32, game: Option<&GameBoard>) -> Option<Stake>
    ensures { result ≡ worth_in points (option_map game_of (option_copied game.entry)) }
{
    worth_on(points, game?)
}

/// The points of a side on a board.
fn score(who: Side, board: &Board) -> u32
    ensures { result ≡ score_of who (fields_of board.now) }
{
    match who {
        Side::Own => number(board, OWN_SCORE),
        Side::Other => number(board, OTHER_SCORE),
    }
}

/// The points of the user and of his opponent on a board.
fn scores(board: &Board) -> [u32; 2]
    ensures { result ≡ scores_of (fields_of board.now) }
{
    [score(Side::Own, board), score(Side::Other, board)]
}

/// The end of a game that this side has won, if the scores of two boards show that: it has more points, and the other
/// side as many as before.
fn won_by(winner: Side, before: &GameBoard, after: &GameBoard) -> Option<Won>
    ensures { IfSome result (λ won. GameWon (game_of before.now) (game_of after.now) won) }
{
    let loser = winner.other();
    if score(loser, after.board()) != score(loser, before.board()) {
        return None;
    }
    let (had, has) = (score(winner, before.board()), score(winner, after.board()));
    if has <= had {
        return None;
    }
    let points = has - had;
    Some(Won {
        winner,
        points,
        worth: worth_on(points, before),
    })
}

/// The end of a game that the scores of two boards show.
pub(crate) fn won_between(before: &GameBoard, after: &GameBoard) -> Option<Won>
    ensures { IfSome result (λ won. GameWon (game_of before.now) (game_of after.now) won) }
{
    match won_by(Side::Own, before, after) {
        Some(won) => Some(won),
        None => won_by(Side::Other, before, after),
    }
}

/// Whether both boards have the same points.
pub(crate) fn is_same_score(before: &GameBoard, after: &GameBoard) -> bool
    ensures { result ≡ is_same_score (game_of before.now) (game_of after.now) }
{
    scores(before.board()) == scores(after.board())
}

/// Whether two boards are of matches with the same opponent, and of the same length.
fn is_alike(a: &Board, b: &Board) -> bool
    ensures { result ≡ is_alike (fields_of a.now) (fields_of b.now) }
{
    a.opponent().bytes() == b.opponent().bytes() && a.field(MATCH_LENGTH) == b.field(MATCH_LENGTH)
}

/// Whether nobody has lost points between two boards.
fn keeps_points(a: &Board, b: &Board) -> bool
    ensures { result ≡ keeps_points (fields_of a.now) (fields_of b.now) }
{
    score(Side::Own, a) <= score(Side::Own, b) && score(Side::Other, a) <= score(Side::Other, b)
}

/// Whether a board can be of the same match as the one before it: nobody loses points.
pub(crate) fn is_same_match(before: &GameBoard, after: &GameBoard) -> bool
    ensures { result ≡ is_same_match (game_of before.now) (game_of after.now) }
{
    is_alike(before.board(), after.board()) && keeps_points(before.board(), after.board())
}

/// The end of the match that a board shows, if this side has won it.
fn match_won_by(winner: Side, board: &Board) -> Option<WonMatch>
    ensures won { IfSome result (λ won. MatchWon (fields_of board.now) won) }
    ensures winner { IfSome result (λ won. won.winner ≡ winner) }
    ensures none { IfNone result (score_of winner (fields_of board.now) < natural (field_of (fields_of board.now) 4)) }
{
    let length = number(board, MATCH_LENGTH);
    if score(winner, board) < length {
        return None;
    }
    Some(WonMatch {
        winner,
        length,
        score: scores(board),
    })
}

/// The end of the match that a board shows.
pub(crate) fn won_match_on(game: &GameBoard) -> Option<WonMatch>
    ensures won { IfSome result (λ won. MatchWon (game_of game.now) won) }
    ensures none { IfNone result (NoMatchWon (game_of game.now)) }
{
    let board = game.board();
    if board.field(MATCH_LENGTH) == UNLIMITED {
        return None;
    }
    match match_won_by(Side::Own, board) {
        Some(won) => Some(won),
        None => match_won_by(Side::Other, board),
    }
}

/// Whether the cube shows twice as much as before.
pub(crate) fn is_cube_doubled(before: &GameBoard, after: &GameBoard) -> bool
    ensures { result ≡ (cube_of (game_of after.now) == cube_of (game_of before.now) * 2) }
{
    u64::from(number(after.board(), CUBE)) == u64::from(number(before.board(), CUBE)) * 2
}

/// Who has taken a double, by who may double next.
pub(crate) fn taker_on(game: &GameBoard) -> Option<Side>
    ensures { result ≡ taker_of (game_of game.now) }
{
    let board = game.board();
    let (own, other) = (number(board, MAY_DOUBLE), number(board, OTHER_MAY_DOUBLE));
    if own == 1 && other == 0 {
        Some(Side::Own)
    } else if own == 0 && other == 1 {
        Some(Side::Other)
    } else {
        None
    }
}
