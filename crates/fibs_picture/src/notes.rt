//! The facts of a board in words, one by one: for a row of the board, or below it.
ghost use Rattle.std.specs.Prelude.{◌≡◌, ◌≤◌, ◌-◌, ◌++◌, ◌∷◌, [], OnOk, codes, decimal, length, pos};
ghost use Rattle.std.specs.Fmt.{signed_decimal};
ghost use Rattle.std.specs.Ordering.{int_eq};
ghost use Rattle.fibs_fields.specs.Board.{field_of};
ghost use Rattle.fibs_fields.specs.StoredBoard.{fields_of};
ghost use Rattle.fibs_position.specs.OwnView.{turn, colour};
ghost use Rattle.fibs_position.specs.PositionValue.{position_value};
ghost use Rattle.fibs_picture.specs.Notes.{room, says_long_words, spaced, lettered, labelled, die_mark, die_word, two_dice, race_count, race_word, match_words, whose, doublers, others_turn, turn_words, note};
ghost use Rattle.fibs_picture.specs.Picture.{is_one};

use crate::cell::Half;
use crate::look::Look;
use crate::mark::{Mark, append_marked};
use crate::pips::{other_pips, own_pips};
use crate::strip::is_below;
use crate::words::first_of;
use fibs_fields::boards::Board;
use fibs_fields::boards::fields::{
    COLOUR, CUBE, FIRST_DIE, MATCH_LENGTH, MAY_DOUBLE, OTHER_FIRST_DIE, OTHER_MAY_DOUBLE,
    OTHER_OFF, OTHER_SCORE, OTHER_SECOND_DIE, OWN_OFF, OWN_SCORE, SECOND_DIE, TURN, UNLIMITED,
};
use fibs_position::Position;
use itoa::{Buffer, Integer};
use std::alloc::AllocError;

/// A fact that is told in words. In the upper half it is the opponent's, in the lower one the player's.
#[derive(Clone, Copy, Debug, PartialEq, Eq)]
pub enum Note {
    /// A letter and a name.
    Name(Half),
    /// A score.
    Score(Half),
    /// How many checkers are off.
    Off(Half),
    /// How far the checkers have to go.
    Pips(Half),
    /// The dice.
    Dice(Half),
    /// How long the match is.
    Length,
    /// The cube.
    Cube,
    /// Whose turn it is.
    Turn,
}

/// The columns of the board, and those of the widest picture.
const BOARD: usize = 47;

const WIDEST: usize = 79;

/// How many columns a fact may have: below the board as many as beside it at most.
#[tactic(auto, unfolding(crate::specs::Notes::room))]
fn room(columns: usize) -> usize
    ensures value { result ≡ room columns }
    ensures low { 25 ≤ result }
    ensures high { result ≤ 32 }
{
    if is_below(columns) {
        WIDEST - BOARD
    } else {
        columns.min(WIDEST) - BOARD
    }
}

/// Whether the words have their long form.
fn says_long_words(look: &Look) -> bool
    ensures { result ≡ says_long_words look.now }
{
    look.is_long && look.columns >= WIDEST
}

/// Appends words, and a number.
fn append_count<I: Integer>(words: &[u8], number: I, text: &mut Vec<u8>) -> Result<(), AllocError>
    ensures { OnOk result (text.new.items ≡ text.old.items ++ (words.now ++ I.text number)) }
{
    text.extend_from_slice(words)?;
    text.extend_from_slice(Buffer::new().format(number).as_bytes())
}

/// Appends a letter and a name.
fn append_name(letter: u8, name: &[u8], text: &mut Vec<u8>) -> Result<(), AllocError>
    ensures { OnOk result (text.new.items ≡ text.old.items ++ spaced (lettered letter name.now)) }
{
    text.extend_from_slice(&[letter, b' '])?;
    text.extend_from_slice(name)
}

/// Appends a score.
fn append_score(below: bool, number: i32, text: &mut Vec<u8>) -> Result<(), AllocError>
    ensures { OnOk result (text.new.items ≡ text.old.items
        ++ spaced (labelled below (codes "score") [] (signed_decimal number ∷ []))) }
{
    if below {
        append_count(b"score ", number, text)
    } else {
        append_count(b"  score ", number, text)
    }
}

/// Appends how many checkers are off.
fn append_off(below: bool, number: i32, text: &mut Vec<u8>) -> Result<(), AllocError>
    ensures { OnOk result (text.new.items ≡ text.old.items
        ++ spaced (labelled below (codes "off") ([] ∷ [] ∷ []) (signed_decimal number ∷ []))) }
{
    if below {
        append_count(b"off ", number, text)
    } else {
        append_count(b"  off   ", number, text)
    }
}

/// Appends how far checkers have to go.
fn append_pips(below: bool, number: u32, text: &mut Vec<u8>) -> Result<(), AllocError>
    ensures { OnOk result (text.new.items ≡ text.old.items
        ++ spaced (labelled below (codes "pips") ([] ∷ []) (decimal number ∷ []))) }
{
    if below {
        append_count(b"pips ", number, text)
    } else {
        append_count(b"  pips  ", number, text)
    }
}

/// Appends how far the player is behind or ahead.
fn append_race(own: u32, other: u32, text: &mut Vec<u8>) -> Result<(), AllocError>
    ensures { OnOk result (text.new.items ≡ text.old.items
        ++ (32 ∷ (race_count own other ++ (32 ∷ race_word own other)))) }
{
    if own == other {
        text.extend_from_slice(b" (even race)")
    } else if own > other {
        append_count(b" (", own - other, text)?;
        text.extend_from_slice(b" behind)")
    } else {
        append_count(b" (", other - own, text)?;
        text.extend_from_slice(b" ahead)")
    }
}

/// Appends how far the player's checkers have to go, and how far he is behind or ahead.
#[tactic(auto, using(crate::proofs::PictureLemmas::Spaced::race_spaced))]
fn append_own_pips(below: bool, own: u32, other: u32, text: &mut Vec<u8>) -> Result<(), AllocError>
    ensures { OnOk result (text.new.items ≡ text.old.items ++ spaced (labelled below (codes "pips") ([] ∷ [])
        (decimal own ∷ race_count own other ∷ race_word own other ∷ []))) }
{
    append_pips(below, own, text)?;
    append_race(own, other, text)
}

/// The mark of a die: none if it is not shown.
fn die_mark(die: u8, mark: Mark) -> Mark
    ensures { result ≡ die_mark mark die }
{
    if die == 0 { Mark::Plain } else { mark }
}

/// Appends a die.
fn append_die(die: u8, mark: Mark, text: &mut Vec<u8>) -> Result<(), AllocError>
    requires { die ≤ 6 }
    ensures { OnOk result (text.new.items ≡ text.old.items ++ die_word mark die) }
{
    append_marked(b'0' + die, die_mark(die, mark), text)
}

/// Appends two dice, or that there are none.
fn append_two(first: u8, second: u8, mark: Mark, text: &mut Vec<u8>) -> Result<(), AllocError>
    requires first { first ≤ 6 }
    requires second { second ≤ 6 }
    ensures { OnOk result (text.new.items ≡ text.old.items ++ spaced (two_dice mark first second)) }
{
    if first == 0 && second == 0 {
        text.extend_from_slice(b"-")
    } else {
        append_die(first, mark, text)?;
        text.extend_from_slice(b" ")?;
        append_die(second, mark, text)
    }
}

/// Appends a label and two dice.
#[tactic(auto, using(crate::proofs::PictureLemmas::Spaced::dice_spaced))]
fn append_dice(
    below: bool,
    first: u8,
    second: u8,
    mark: Mark,
    text: &mut Vec<u8>,
) -> Result<(), AllocError>
    requires first { first ≤ 6 }
    requires second { second ≤ 6 }
    ensures { OnOk result (text.new.items ≡ text.old.items
        ++ spaced (labelled below (codes "dice") ([] ∷ []) (two_dice mark first second))) }
{
    if below {
        text.extend_from_slice(b"dice ")?;
        append_two(first, second, mark, text)
    } else {
        text.extend_from_slice(b"  dice  ")?;
        append_two(first, second, mark, text)
    }
}

/// Appends how long a match is.
fn append_length(length: i32, text: &mut Vec<u8>) -> Result<(), AllocError>
    ensures { OnOk result (text.new.items ≡ text.old.items ++ spaced (match_words length)) }
{
    if length == UNLIMITED {
        text.extend_from_slice(b"unlimited match")
    } else {
        append_count(b"match to ", length, text)
    }
}

/// Appends what is a player's, by his name.
fn append_whose(name: &[u8], text: &mut Vec<u8>) -> Result<(), AllocError>
    ensures { OnOk result (text.new.items ≡ text.old.items ++ whose name.now) }
{
    text.extend_from_slice(name)?;
    text.extend_from_slice(b"'s")
}

/// The same after the letter of his checkers.
fn append_lettered(letter: u8, name: &[u8], text: &mut Vec<u8>) -> Result<(), AllocError>
    ensures { OnOk result (text.new.items ≡ text.old.items ++ spaced (lettered letter (whose name.now))) }
{
    text.extend_from_slice(&[letter, b' '])?;
    append_whose(name, text)
}

/// Appends who may double next, in so many columns.
#[tactic(auto, unfolding(crate::specs::Notes::doublers))]
fn append_doublers(
    look: &Look,
    is_watched: bool,
    board: &Board,
    left: usize,
    own: bool,
    other: bool,
    text: &mut Vec<u8>,
) -> Result<(), AllocError>
    ensures { OnOk result (text.new.items ≡ text.old.items
        ++ spaced (doublers look.now is_watched (fields_of board.now) left own other)) }
{
    match (own, other) {
        (true, true) => {
            if says_long_words(look) {
                text.extend_from_slice(b"in the middle")
            } else {
                text.extend_from_slice(b"centred")
            }
        }
        (true, false) => {
            if is_watched {
                let name = first_of(board.player().bytes(), left.saturating_sub(4).min(14));
                append_lettered(look.own, name, text)
            } else {
                text.extend_from_slice(b"yours")
            }
        }
        (false, true) => {
            if is_watched {
                let name = first_of(board.opponent().bytes(), left.saturating_sub(4).min(14));
                append_lettered(look.other, name, text)
            } else if says_long_words(look) {
                text.extend_from_slice(b"the opponent's")
            } else {
                let name = first_of(board.opponent().bytes(), left.saturating_sub(2).min(24));
                append_whose(name, text)
            }
        }
        (false, false) => text.extend_from_slice(b"no doubling"),
    }
}

/// Field n is 1.
fn is_one(board: &Board, field: usize) -> bool
    requires low { 4 ≤ field }
    requires high { field ≤ 53 }
    ensures { result ≡ is_one (fields_of board.now) field }
{
    board.field(field) == 1
}

/// Appends what the cube shows, and who may double next, in so many columns.
fn append_cube_with(
    look: &Look,
    is_watched: bool,
    board: &Board,
    digits: &[u8],
    left: usize,
    text: &mut Vec<u8>,
) -> Result<(), AllocError>
    ensures { let b = fields_of board.now in OnOk result (text.new.items ≡ text.old.items
        ++ (codes "cube " ++ (digits.now ++ (codes ", "
        ++ spaced (doublers look.now is_watched b left (is_one b 39) (is_one b 40)))))) }
{
    let own = is_one(board, MAY_DOUBLE);
    let other = is_one(board, OTHER_MAY_DOUBLE);
    text.extend_from_slice(b"cube ")?;
    text.extend_from_slice(digits)?;
    text.extend_from_slice(b", ")?;
    append_doublers(look, is_watched, board, left, own, other, text)
}

/// Appends what the cube shows, and who may double next.
fn append_cube(
    look: &Look,
    is_watched: bool,
    board: &Board,
    text: &mut Vec<u8>,
) -> Result<(), AllocError>
    ensures { let b = fields_of board.now in let digits = signed_decimal (field_of b 38) in
        OnOk result (text.new.items ≡ text.old.items ++ (codes "cube " ++ (digits ++ (codes ", "
        ++ spaced (doublers look.now is_watched b ((room look.now.columns - 7) - length digits)
        (is_one b 39) (is_one b 40)))))) }
{
    let mut buffer = Buffer::new();
    let digits = buffer.format(board.field(CUBE)).as_bytes();
    let left = room(look.columns)
        .saturating_sub(7)
        .saturating_sub(digits.len());
    append_cube_with(look, is_watched, board, digits, left, text)
}

/// Appends a player's turn, by his name.
fn append_named_turn(name: &[u8], text: &mut Vec<u8>) -> Result<(), AllocError>
    ensures { OnOk result (text.new.items ≡ text.old.items ++ spaced (whose name.now ∷ codes "turn" ∷ [])) }
{
    append_whose(name, text)?;
    text.extend_from_slice(b" turn")
}

/// The same after the letter of his checkers.
fn append_lettered_turn(letter: u8, name: &[u8], text: &mut Vec<u8>) -> Result<(), AllocError>
    ensures { OnOk result (text.new.items ≡ text.old.items
        ++ spaced ((letter ∷ []) ∷ whose name.now ∷ codes "turn" ∷ [])) }
{
    text.extend_from_slice(&[letter, b' '])?;
    append_named_turn(name, text)
}

/// Appends the opponent's turn on a board of the user's own: his name, if it can be told from nobody.
#[tactic(auto, unfolding(crate::specs::Notes::others_turn))]
fn append_others_turn(look: &Look, name: &[u8], text: &mut Vec<u8>) -> Result<(), AllocError>
    ensures { OnOk result (text.new.items ≡ text.old.items ++ spaced (others_turn look.now name.now)) }
{
    if says_long_words(look) {
        text.extend_from_slice(b"the opponent's turn")
    } else if name == b"nobody".as_slice() {
        text.extend_from_slice(b"the opponent's turn")
    } else {
        append_named_turn(name, text)
    }
}

/// Appends whose turn it is, by whether it is nobody's, and the player's.
#[tactic(auto, unfolding(crate::specs::Notes::turn_words))]
fn append_turn_of(
    look: &Look,
    is_watched: bool,
    board: &Board,
    none: bool,
    own: bool,
    text: &mut Vec<u8>,
) -> Result<(), AllocError>
    ensures { OnOk result (text.new.items ≡ text.old.items
        ++ spaced (turn_words look.now is_watched (fields_of board.now) none own)) }
{
    match (none, own) {
        (true, _) => text.extend_from_slice(b"nobody's turn"),
        (false, true) => {
            if is_watched {
                let name = first_of(board.player().bytes(), room(look.columns) - 9);
                append_lettered_turn(look.own, name, text)
            } else {
                text.extend_from_slice(b"your turn")
            }
        }
        (false, false) => {
            if is_watched {
                let name = first_of(board.opponent().bytes(), room(look.columns) - 9);
                append_lettered_turn(look.other, name, text)
            } else {
                let name = first_of(board.opponent().bytes(), room(look.columns) - 8);
                append_others_turn(look, name, text)
            }
        }
    }
}

/// The turn is nobody's.
fn is_nobodys(board: &Board) -> bool
    ensures { result ≡ int_eq (turn (fields_of board.now)) (pos 0) }
{
    board.field(TURN) == 0
}

/// It is the player's.
fn is_players(board: &Board) -> bool
    ensures { let b = fields_of board.now in result ≡ int_eq (turn b) (colour b) }
{
    board.field(TURN) == board.field(COLOUR)
}

/// Appends whose turn it is.
fn append_turn(
    look: &Look,
    is_watched: bool,
    board: &Board,
    text: &mut Vec<u8>,
) -> Result<(), AllocError>
    ensures { let b = fields_of board.now in OnOk result (text.new.items ≡ text.old.items
        ++ spaced (turn_words look.now is_watched b (int_eq (turn b) (pos 0)) (int_eq (turn b) (colour b)))) }
{
    let none = is_nobodys(board);
    let own = is_players(board);
    append_turn_of(look, is_watched, board, none, own, text)
}

/// Appends a fact in words; of the player's dice the mark.
#[tactic(auto, using(crate::proofs::PictureLemmas::Spaced::cube_spaced), unfolding(crate::specs::Notes::note))]
pub fn append_note(
    look: &Look,
    is_watched: bool,
    board: &Board,
    position: &Position,
    mark: Mark,
    told: Note,
    text: &mut Vec<u8>,
) -> Result<(), AllocError>
    ensures { OnOk result (text.new.items ≡ text.old.items ++ spaced
        (note look.now is_watched (fields_of board.now) (position_value position.now) mark told)) }
{
    let below = is_below(look.columns);
    let most = room(look.columns) - 2;
    match told {
        Note::Name(Half::Upper) => {
            append_name(look.other, first_of(board.opponent().bytes(), most), text)
        }
        Note::Name(Half::Lower) => {
            append_name(look.own, first_of(board.player().bytes(), most), text)
        }
        Note::Score(Half::Upper) => append_score(below, board.field(OTHER_SCORE), text),
        Note::Score(Half::Lower) => append_score(below, board.field(OWN_SCORE), text),
        Note::Off(Half::Upper) => append_off(below, board.field(OTHER_OFF), text),
        Note::Off(Half::Lower) => append_off(below, board.field(OWN_OFF), text),
        Note::Pips(Half::Upper) => append_pips(below, other_pips(position), text),
        Note::Pips(Half::Lower) => {
            append_own_pips(below, own_pips(position), other_pips(position), text)
        }
        Note::Dice(Half::Upper) => append_dice(
            below,
            board.die(OTHER_FIRST_DIE),
            board.die(OTHER_SECOND_DIE),
            Mark::Plain,
            text,
        ),
        Note::Dice(Half::Lower) => append_dice(
            below,
            board.die(FIRST_DIE),
            board.die(SECOND_DIE),
            mark,
            text,
        ),
        Note::Length => append_length(board.field(MATCH_LENGTH), text),
        Note::Cube => append_cube(look, is_watched, board, text),
        Note::Turn => append_turn(look, is_watched, board, text),
    }
}
