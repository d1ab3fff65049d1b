//! Laws of messages and their lines. Those of fields and of boards are in fibs_fields.

ghost use Rattle.std.specs.Prelude.{◌<◌, ◌≤◌, ◌≡◌, ◌↔◌, ◌⊎◌, ℕ, List, IsTrue, All, length, map};
ghost use Rattle.fibs_fields.specs.Board.{BoardFields, IsBoard, spelling};
ghost use Rattle.fibs_messages.specs.Bits.{HasBits};
ghost use Rattle.fibs_fields.specs.Decimal.{numbers_of_32_bits, numbers_of_64_bits};
ghost use Rattle.fibs_fields.specs.Field.{kind_of};
ghost use Rattle.fibs_messages.specs.Flags.{FlagsAreTheFields};
ghost use Rattle.fibs_messages.specs.Line.{IsBoardLine, IsReading, ReadingIsExact, ReadingValue, numbered_line, reading_of};
ghost use Rattle.fibs_messages.specs.Message.{HasNumber, IsMessage, IsNumber, IsNumbered, MessageText, MessageValue, WrongMessage, canonical, kinds_of, message_of, own_info_fields, who_info_fields};
ghost use Rattle.fibs_messages.specs.declared.message.Message.{Message};
ghost use Rattle.fibs_fields.specs.Printed.{IsPrinted};
ghost use Rattle.fibs_messages.specs.declared.message.OwnInfo.{OwnInfo};

use crate::line::{Reading, read};
use crate::message::{Message, OwnInfo, WhoInfo};
pub use fibs_fields::boards::laws::{
    boards_are_valid, each_line_is_one_board_or_wrong, fields_have_their_ranges,
    fields_tell_boards, is_board_is_exact, lines_of_boards_are_their_spellings, print_reads_back,
    prints_tell_boards, spellings_tell_boards,
};
use fibs_fields::fault::Fault;
pub use fibs_fields::laws::{
    decimals_are_exact, faults_are_themselves, field_faults_are_their_parts, names_are_their_bytes,
    tails_are_their_bytes, words_are_their_bytes,
};

/// Two settings of message 2 are equal exactly if their fields are.
pub fn own_infos_are_their_fields(a: &OwnInfo<'_>, b: &OwnInfo<'_>) -> bool
    ensures { IsTrue result ↔ (own_info_fields a.now ≡ own_info_fields b.now) }
{
    *a == *b
}

/// Two players of message 5 are equal exactly if their fields are.
pub fn who_infos_are_their_fields(a: &WhoInfo<'_>, b: &WhoInfo<'_>) -> bool
    ensures { IsTrue result ↔ (who_info_fields a.now ≡ who_info_fields b.now) }
{
    *a == *b
}

/// Two messages are equal exactly if they have the same number and the same fields.
pub fn messages_are_their_fields(a: &Message<'_>, b: &Message<'_>) -> bool
    ensures { IsTrue result ↔ (message_of a.now ≡ message_of b.now) }
{
    *a == *b
}

/// Two readings are equal exactly if they say the same.
pub fn readings_are_what_they_say(a: &Reading<'_>, b: &Reading<'_>) -> bool
    ensures { IsTrue result ↔ (reading_of a.now ≡ reading_of b.now) }
{
    *a == *b
}

/// A numbered line says a message or has a first wrong field, never both, and no second one of either.
pub fn each_numbered_line_is_one_message_or_wrong()
    ensures either { (line : List ℕ) → (n : ℕ) → HasNumber line n →
        ((m : MessageValue) × MessageText m line) ⊎ ((k : ℕ) × (f : Fault) × WrongMessage line n k f) }
    ensures not_both { (line : List ℕ) → (m : MessageValue) → (n k : ℕ) → (f : Fault) →
        MessageText m line → WrongMessage line n k f → ⊥ }
    ensures one_message { (line : List ℕ) → (l m : MessageValue) → MessageText l line → MessageText m line → l ≡ m }
    ensures one_fault { (line : List ℕ) → (m n j k : ℕ) → (f g : Fault) →
        WrongMessage line m j f → WrongMessage line n k g → (m ≡ n) × (j ≡ k) × (f ≡ g) }
{}

/// A line that says a message is a numbered line, and no board line is one.
pub fn board_lines_are_not_numbered()
    ensures messages { (line : List ℕ) → (m : MessageValue) → MessageText m line → HasNumber line m.number }
    ensures boards { (line : List ℕ) → IsBoardLine line → ¬ IsNumbered line }
{}

/// A line has one reading.
#[tactic(auto, using(crate::proofs::LineLemmas::Readings::reading_same))]
pub fn each_line_has_one_reading()
    ensures { (line : List ℕ) → (v w : ReadingValue) → IsReading line v → IsReading line w → v ≡ w }
{}

/// The function `reading_value` gives each line its reading.
#[tactic(auto, using(crate::proofs::LineLemmas::ReadingValues::reading_is_exact))]
pub fn reading_is_exact()
    ensures { ReadingIsExact }
{}

/// What is printed of a board is printed text of at most 329 bytes, and begins with `board:`.
pub fn spellings_are_lines()
    ensures printed { (b : BoardFields) → IsBoard b → All IsPrinted (spelling b) }
    ensures short { (b : BoardFields) → IsBoard b → length (spelling b) ≤ 329 }
    ensures begins { (b : BoardFields) → IsBoard b → IsBoardLine (spelling b) }
{}

/// The flags of message 2 are its fields of these names.
pub fn flags_are_the_fields()
    ensures { (info : OwnInfo) → FlagsAreTheFields info }
{}

/// The canonical line of a message says it, and messages with the same canonical line are equal.
pub fn canonical_lines_say_messages()
    ensures says { (m : MessageValue) → IsMessage m → MessageText m (canonical m) }
    ensures tells { (l m : MessageValue) → IsMessage l → IsMessage m → canonical l ≡ canonical m → l ≡ m }
{}

/// The canonical line of a message is read as that message.
pub fn canonical_lines_read_back(line: &[u8]) -> Reading<'_>
    ensures { (m : MessageValue) → IsMessage m → line.now ≡ canonical m → reading_of result ≡ numbered_line m }
{
    read(line)
}

/// The number and the fields of each message are those of one row of the table.
#[tactic(auto, using(crate::proofs::MessageLemmas::Rows::number_is, crate::proofs::MessageLemmas::Rows::kinds_are))]
pub fn messages_are_rows_of_the_table()
    ensures { (m : Message) →
        IsNumber (message_of m).number × (map kind_of (message_of m).fields ≡ kinds_of (message_of m).number) }
{}

fn own_info_has_bits(info: &OwnInfo<'_>)
    ensures experience { info.now.experience < numbers_of_64_bits }
    ensures rating { info.now.rating < numbers_of_32_bits }
{
    let _experience = info.experience;
    let _rating = info.rating;
}

fn who_info_has_bits(info: &WhoInfo<'_>)
    ensures rating { info.now.rating < numbers_of_32_bits }
    ensures experience { info.now.experience < numbers_of_64_bits }
    ensures idle { info.now.idle < numbers_of_64_bits }
    ensures login { info.now.login < numbers_of_64_bits }
{
    let _rating = info.rating;
    let _experience = info.experience;
    let _idle = info.idle;
    let _login = info.login;
}

fn has_bits(message: &Message<'_>)
    ensures { HasBits message.now }
{
    match message {
        Message::Welcome { last_login, .. } => {
            let _last_login = *last_login;
        }
        Message::OwnInfo(info) => own_info_has_bits(info),
        Message::WhoInfo(info) => who_info_has_bits(info),
        Message::MessageReceived { time, .. } => {
            let _time = *time;
        }
        _ => {}
    }
}

/// Each message has the number and the kinds of fields of one row of the table, and values of these kinds.
#[tactic(auto, using(crate::proofs::MessageLemmas::Rows::is_message))]
pub fn messages_are_well_formed(message: &Message<'_>)
    ensures { IsMessage (message_of message.now) }
{
    has_bits(message);
}
