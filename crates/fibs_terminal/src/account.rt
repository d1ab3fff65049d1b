//! Who the user is, and with whom a match of his is saved.
ghost use Rattle.std.specs.Prelude.{◌≡◌, ◌↔◌, [], IsTrue, None, OnOk, Some, false, not, option_map};
ghost use Rattle.std.specs.Option.{option_copied};
ghost use Rattle.fibs_fields.specs.Bytes.{name_bytes};
ghost use Rattle.fibs_fields.specs.Spaces.{without_spaces};
ghost use Rattle.fibs_fields.specs.StoredBoard.{fields_of};
ghost use Rattle.fibs_advice.specs.Standings.{is_in_match};
ghost use Rattle.fibs_wording.specs.SavedLists.{HearsList, Keeps};
ghost use Rattle.fibs_terminal.specs.Saved.{AfterDenial, AfterTold, has_saved, length_of, match_on};

use crate::own_rows::fit_from;
use fibs_advice::situation::is_same;
use fibs_advice::standing::Standing;
use fibs_events::told::Told;
use fibs_fields::boards::Board;
use fibs_fields::boards::fields::{MATCH_LENGTH, OTHER_SCORE, OWN_SCORE, UNLIMITED};
use fibs_fields::split::split;
use fibs_fields::trailing_spaces::without_spaces;
use fibs_messages::OwnInfo;
use fibs_wording::environment::Page;
use fibs_wording::environment::pieces::append_all;
use fibs_wording::players::Asker;
use fibs_wording::saved::{SavedMatches, append_here};
use std::alloc::{AllocError, Global};

/// How the server says that no match with a player is saved.
const NO_MATCH: &[u8] = b"** There's no saved match with ";

/// Who the user is, and which of his matches are saved.
#[derive(Drop)]
pub struct Account {
    /// The matches that are saved.
    saved: SavedMatches,
    /// The user's own name; empty if the server has not said it.
    name: Vec<u8>,
    /// The user's own rating, in hundredths, as the server said it last.
    rating: Option<u32>,
}

/// Whether the user is in no match, so that he can join one.
pub fn is_free(standing: Standing) -> bool
    ensures { result ≡ not (is_in_match standing) }
{
    matches!(
        standing,
        Standing::Free | Standing::Invited | Standing::Gone | Standing::Reopened
    )
}

/// The length of the match of a board; None if it is unlimited.
#[tactic(auto, unfolding(fibs_fields::specs::Board::field_values))]
fn length_of(board: &Board) -> Option<u64>
    ensures { result ≡ length_of (fields_of board.now) }
{
    if board.field(MATCH_LENGTH) == UNLIMITED {
        return None;
    }
    Some(u64::from(board.field(MATCH_LENGTH).unsigned_abs()))
}

impl Account {
    /// The server has said nothing.
    pub fn new(alloc: Global) -> Account
        ensures name { result.name.items ≡ [] }
        ensures rating { result.rating ≡ None }
    {
        Account {
            saved: SavedMatches::new(alloc),
            name: Vec::new(alloc),
            rating: None,
        }
    }

    /// The user, as one who asks for a list of players, to whom boards are told in words or not.
    pub fn asker(&self, is_told: bool) -> Asker<'_>
        ensures name { result.name.now ≡ self.now.name.items }
        ensures rating { result.rating ≡ self.now.rating }
        ensures saved { result.saved.now ≡ self.now.saved }
        ensures told { result.is_told ≡ is_told }
    {
        Asker {
            name: self.name.as_slice(),
            rating: self.rating,
            saved: &self.saved,
            is_told,
        }
    }

    /// Whether this is the user's own name.
    pub fn is_of(&self, name: &[u8]) -> bool
        ensures { IsTrue result ↔ (self.now.name.items ≡ name.now) }
    {
        is_same(self.name.as_slice(), name)
    }

    /// Takes note of the user's name.
    pub fn note_name(&mut self, name: &[u8]) -> Result<(), AllocError>
        ensures name { OnOk result (self.new.name.items ≡ name.now) }
        ensures kept { self.new ≡ record self.old { name = self.new.name } }
    {
        self.name.clear();
        self.name.extend_from_slice(name)
    }

    /// Takes note of the user's rating, in hundredths.
    pub fn note_rating(&mut self, rating: u32)
        ensures { self.new ≡ record self.old { rating = Some rating } }
    {
        self.rating = Some(rating);
    }

    /// The user's own name; empty if the server has not said it.
    pub fn name(&self) -> &[u8]
        ensures { result.now ≡ self.now.name.items }
    {
        self.name.as_slice()
    }

    /// The user's own rating, in hundredths, if the server has said it.
    pub fn rating(&self) -> Option<u32>
        ensures { result ≡ self.now.rating }
    {
        self.rating
    }

    /// Whether a match with a player is saved, as far as is known.
    pub fn has_saved(&self, name: &[u8]) -> bool
        ensures { result ≡ has_saved name.now self.now.saved.matches.items }
    {
        self.saved.with(name).is_some()
    }

    /// Takes note of who the user is.
    pub fn note_own_info(&mut self, info: &OwnInfo<'_>) -> Result<(), AllocError>
        ensures name { OnOk result (self.new.name.items ≡ name_bytes info.now.name) }
        ensures rating { self.new.rating ≡ Some info.now.rating }
        ensures saved { self.new.saved ≡ self.old.saved }
    {
        self.note_rating(info.rating);
        self.note_name(info.name.bytes())
    }

    /// Says that a player who has logged in is here with whom a match is saved, and if the user can, how it is resumed.
    pub fn say_here(
        &self,
        name: &[u8],
        standing: Standing,
        page: &mut Page<'_>,
    ) -> Result<(), AllocError>
        ensures { has_saved name.now self.now.saved.matches.items ≡ false → page.new ≡ page.old }
    {
        let Some(saved) = self.saved.with(name) else {
            return Ok(());
        };
        let alloc = page.alloc;
        let mut here = Vec::new(alloc);
        append_here(saved, &mut here)?;
        let start = page.text.len();
        if !is_free(standing) {
            page.say_all(&[here.as_slice(), b".\n"])?;
            return fit_from(start, page);
        }
        here.extend_from_slice(b":")?;
        let mut how = Vec::new(alloc);
        append_all(&[b"invite ", name, b"."], &mut how)?;
        page.say_joined(here.as_slice(), how.as_slice())?;
        fit_from(start, page)
    }

    /// Takes note of what a text says of saved matches. The match that is left is that of the last board with its
    /// opponent.
    pub fn note_text(
        &mut self,
        alloc: Global,
        said: &[u8],
        told: Option<Told>,
        opponent: &[u8],
        board: Option<&Board>,
    ) -> Result<(), AllocError>
        ensures saved { OnOk result (AfterTold told said.now opponent.now
            (option_map fields_of (option_copied board.entry))
            self.old.saved.matches.items self.new.saved.matches.items) }
        ensures kept { self.new ≡ record self.old { saved = self.new.saved } }
    {
        match (told, board) {
            (Some(Told::Begins | Told::Resumes), _) => self.saved.forget(opponent),
            (Some(Told::NoMatch), _) => self.forget_denied(said),
            (Some(Told::Saved), Some(board)) => self.keep_board(alloc, board)?,
            _ => {}
        }
        Ok(())
    }

    /// No match is saved with the player whom a text names.
    fn forget_denied(&mut self, said: &[u8])
        ensures saved { AfterDenial said.now self.old.saved.matches.items self.new.saved.matches.items }
        ensures kept { self.new ≡ record self.old { saved = self.new.saved } }
    {
        if let Some(rest) = said.strip_prefix(NO_MATCH) {
            self.saved.forget(split(split(rest, b' ').0, b'.').0);
        }
    }

    /// Hears a text that may be of a list of saved matches; `lists` says whether its rows are coming.
    pub fn hear_list(
        &mut self,
        alloc: Global,
        said: &[u8],
        lists: &mut bool,
    ) -> Result<(), AllocError>
        ensures saved { OnOk result (HearsList (without_spaces said.now) lists.old self.old.saved.matches.items
            lists.new self.new.saved.matches.items) }
        ensures kept { self.new ≡ record self.old { saved = self.new.saved } }
    {
        self.saved.hear_text(alloc, without_spaces(said), lists)
    }

    /// The match of a board was saved.
    #[tactic(auto, unfolding(fibs_fields::specs::Board::field_values))]
    fn keep_board(&mut self, alloc: Global, board: &Board) -> Result<(), AllocError>
        ensures saved { OnOk result (Keeps (match_on (fields_of board.now))
            self.old.saved.matches.items self.new.saved.matches.items) }
        ensures kept { self.new ≡ record self.old { saved = self.new.saved } }
    {
        self.saved.keep(
            alloc,
            board.opponent().bytes(),
            u64::from(board.field(OWN_SCORE).unsigned_abs()),
            u64::from(board.field(OTHER_SCORE).unsigned_abs()),
            length_of(board),
        )
    }
}
