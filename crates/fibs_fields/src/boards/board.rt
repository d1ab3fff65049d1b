//! Boards of FIBS board style 3.

ghost use Rattle.std.specs.Prelude.{◌≡◌, ◌≢◌, ◌≤◌, IfSome, IsSome, ◌↔◌, ◌++◌, ◌+◌, ℕ, true, IfOk, IfErr, OnOk, OnErr, drop, option_map, Ok, Err};
ghost use Rattle.fibs_fields.specs.StoredParts.{parts};
ghost use Rattle.fibs_fields.specs.Bytes.{name_bytes};
ghost use Rattle.fibs_fields.specs.BoardProp.{IsBoard-prop};
ghost use Rattle.fibs_fields.specs.FieldReading.{natural};
ghost use Rattle.fibs_fields.specs.Name.{is_name};
ghost use Rattle.arrayvec.specs.ArrayVec.{array_vec_len};
ghost use Rattle.fibs_fields.specs.Board.{BoardFields, IsBoard, Fit, field_values, spelling, BoardText, Wrong, field_of, can_have, with_field};

use crate::boards::field_ranges::can_have;
use crate::boards::numbers::Numbers;
use crate::boards::print::{LINE_LEN, write_board};
use crate::boards::read::read_board;
use crate::boards::stored_name::StoredName;
use crate::fault::FieldFault;
use crate::fixed::append;
use crate::name::Name;
use arrayvec::ArrayVec;
use std::alloc::AllocError;

/// A board as the server shows it in board style 3: two names, and 50 numbers, each one that its field
/// may have.
///
/// Field 1 is the word `board`, fields 2 and 3 are the names of the player and of the opponent. The other fields are
/// numbers, which `field` gives and `with` changes: 4 match length; 5, 6 scores; 7 to 32 places 0 to 25; 33 turn; 34 to
/// 37 dice; 38 cube; 39 to 41 who may double, and whether the opponent just has; 42 colour; 43 direction; 44, 45 home
/// and bar; 46, 47 borne off; 48, 49 on the bar; 50 can move; 51 to 53 forced move, did Crawford, redoubles.
#[derive(Clone, Copy, Debug, PartialEq, Eq)]
pub struct Board {
    player: StoredName,
    opponent: StoredName,
    numbers: Numbers,
    pub ghost valid: { IsBoard (parts player opponent numbers) } by { IsBoard-prop (parts player opponent numbers) },
}

impl Board {
    ghost use Rattle.fibs_fields.specs.StoredBoard.{fields_of, read_fields};

    /// The board of two names and numbers that fit.
    pub(crate) fn of_parts(player: Name<'_>, opponent: Name<'_>, numbers: [i32; 50]) -> Board
        requires { Fit field_values numbers }
        ensures { fields_of result
            ≡ record { player = name_bytes player.entry; opponent = name_bytes opponent.entry; numbers = numbers } }
    {
        Board {
            player: StoredName::new(player.bytes()),
            opponent: StoredName::new(opponent.bytes()),
            numbers: Numbers::new(&numbers),
        }
    }

    /// The board that the line says, or its leftmost wrong field.
    ///
    /// Spaces at the line's end are dropped, and the fields are parted by colons. Field 1 is `BadName` if it is not
    /// `board`, fields 2 and 3 if they are not names. A number is `NotANumber` if it is not a canonical decimal (`0`,
    /// or digits that begin with no 0, with a `-` or without), and `OutOfRange` if it is one, of any length, that
    /// the field may not have. The first absent field is `Missing`, a 54th is `Extra`.
    pub fn read(line: &[u8]) -> Result<Board, FieldFault>
        // What is read is what the line says.
        ensures found { IfOk (read_fields result) (λ b. BoardText b line.now) }
        // What a line says is read.
        ensures only { (b : BoardFields) → BoardText b line.now → read_fields result ≡ Ok b }
        // The fault is that of the first wrong field.
        ensures wrong { IfErr (read_fields result) (λ e. Wrong line.now e.field e.fault) }
        // A line with a wrong field is not read.
        ensures least { (e : FieldFault) → Wrong line.now e.field e.fault → read_fields result ≡ Err e }
    {
        read_board(line)
    }

    /// The line that says the board, without a line end: the 53 fields, joined by colons, in canonical decimals.
    pub fn print(&self) -> ArrayVec<u8, 512>
        ensures text { result.items ≡ spelling (fields_of self.now) }
        ensures says { BoardText (fields_of self.now) result.items }
        ensures short { array_vec_len result ≤ 329 }
    {
        let mut text = [0; LINE_LEN];
        let start = self.write_line(&mut text);
        let mut out = ArrayVec::new();
        append(&mut out, &text[start..]);
        out
    }

    /// Appends the line that says the board, without a line end. `print` gives a text by value; this makes no
    /// copy of one.
    ///
    /// If memory runs out, `out` stays as it was.
    pub fn print_into(&self, out: &mut Vec<u8>) -> Result<(), AllocError>
        ensures appended { OnOk result (out.new.items ≡ out.old.items ++ spelling (fields_of self.now)) }
        ensures refused { OnErr result (out.new.items ≡ out.old.items) }
    {
        let mut text = [0; LINE_LEN];
        let start = self.write_line(&mut text);
        out.extend_from_slice(&text[start..])
    }

    /// Writes the line that says the board so that it ends the text, and gives where it starts.
    fn write_line(&self, text: &mut [u8; LINE_LEN]) -> usize
        ensures within { result ≤ 329 }
        ensures written { drop result text.new ≡ spelling (fields_of self.now) }
    {
        write_board(
            text,
            self.player.as_slice(),
            self.opponent.as_slice(),
            &self.numbers,
        )
    }

    /// The player's name, `You` in the user's own game.
    pub fn player(&self) -> Name<'_>
        ensures value { name_bytes result ≡ (fields_of self.now).player }
        ensures valid { is_name (fields_of self.now).player ≡ true }
    {
        Name::of_valid(self.player.as_slice())
    }

    /// The opponent's name.
    pub fn opponent(&self) -> Name<'_>
        ensures value { name_bytes result ≡ (fields_of self.now).opponent }
        ensures valid { is_name (fields_of self.now).opponent ≡ true }
    {
        Name::of_valid(self.opponent.as_slice())
    }

    /// The number of field `n`, which is 4 to 53 (FIBS board style 3 has their meanings).
    pub fn field(&self, n: usize) -> i32
        requires low { 4 ≤ n }
        requires high { n ≤ 53 }
        ensures value { result ≡ field_of (fields_of self.now) n }
        // It is one that the field may have; the law `fields_have_their_ranges` says which those are.
        ensures allowed { can_have n result ≡ true }
    {
        self.numbers.get(n - 4)
    }

    /// A die, by the number of its field: 0 if it is not shown.
    pub fn die(&self, n: usize) -> u8
        requires low { 34 ≤ n }
        requires high { n ≤ 37 }
        ensures value { result ≡ natural (field_of (fields_of self.now) n) }
        ensures high { result ≤ 6 }
    {
        self.field(n) as u8
    }

    /// The board with the number of field `n` changed. None if `n` is not 4 to 53, or the field can't have the
    /// number.
    pub fn with(&self, n: usize, value: i32) -> Option<Board>
        ensures value { option_map fields_of result ≡ with_field (fields_of self.now) n value }
        ensures changed { IfSome result (λ b. field_of (fields_of b) n ≡ value) }
        ensures kept { IfSome result (λ b. (m : ℕ) → 4 ≤ m → m ≢ n →
            field_of (fields_of b) m ≡ field_of (fields_of self.now) m) }
        ensures names { IfSome result (λ b. ((fields_of b).player ≡ (fields_of self.now).player)
            × ((fields_of b).opponent ≡ (fields_of self.now).opponent)) }
        // It is Some exactly if the field may have the number.
        ensures exact { IsSome result ↔ ((4 ≤ n) × (n ≤ 53) × (can_have n value ≡ true)) }
    {
        self.changed(n, value)
    }

    /// The board with the number of field `n` changed, if the table of the fields allows it.
    fn changed(&self, n: usize, value: i32) -> Option<Board>
        ensures value { option_map fields_of result ≡ with_field (fields_of self.now) n value }
        ensures changed { IfSome result (λ b. field_of (fields_of b) n ≡ value) }
        ensures kept { IfSome result (λ b. (m : ℕ) → 4 ≤ m → m ≢ n →
            field_of (fields_of b) m ≡ field_of (fields_of self.now) m) }
        ensures names { IfSome result (λ b. ((fields_of b).player ≡ (fields_of self.now).player)
            × ((fields_of b).opponent ≡ (fields_of self.now).opponent)) }
        ensures exact { IsSome result ↔ ((4 ≤ n) × (n ≤ 53) × (can_have n value ≡ true)) }
    {
        if !can_have(n, value) {
            return None;
        }
        let mut board = *self;
        board.numbers.set(n - 4, value);
        Some(board)
    }
}
