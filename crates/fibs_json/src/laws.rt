//! Laws of the objects.
ghost use Rattle.fibs_json.specs.Lines.{ObjectsTellLines, OpeningsTell};
ghost use Rattle.fibs_json.specs.Plays.{PlaysTellLines};
ghost use Rattle.fibs_json.specs.Told.{BoardsGoInAgain, OtherWordsAreLines, WordsSayOneLine};

/// The front of an object tells its kind and its line, whatever follows it.
#[tactic(auto, using(crate::proofs::TellingLemmas::openings_tell))]
pub fn openings_tell()
    ensures { OpeningsTell }
{}

/// What is printed for a line tells its bytes, and whether it was cut: no other line has that object.
#[tactic(auto, using(crate::proofs::TellingLemmas::objects_tell))]
pub fn objects_tell_lines()
    ensures { ObjectsTellLines }
{}

/// What is printed for a line with its plays tells the line.
pub fn plays_tell_lines()
    ensures { PlaysTellLines }
{}

/// What is printed for the line of a board is read as that very line.
pub fn boards_go_in_again()
    ensures { BoardsGoInAgain }
{}

/// A word that does not begin as an object does is a line as it is.
#[tactic(auto, using(crate::proofs::ToldLemmas::others_are_lines))]
pub fn other_words_are_lines()
    ensures { OtherWordsAreLines }
{}

/// A word says one line.
pub fn words_say_one_line()
    ensures { WordsSayOneLine }
{}
