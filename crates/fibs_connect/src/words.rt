//! Front ends at which a player types.
ghost use Rattle.std.specs.Prelude.{◌≡◌, OnOk, IfOk, List, [], ℕ};
ghost use Rattle.fibs_connect.specs.Wishes.{WishValue, wish_value, wish_of};

use crate::fault::FrontFault;
use crate::front::Front;
use crate::plain::Plain;
use crate::typed_line::TypedLine;
use crate::wish::{Wish, wish_of};
use fibs_session::{Client, Directory};
use std::io::Write;

/// A front end at which a player types: it says what a typed line asks for.
pub trait Words: Front {
    // What a typed line may ask for.
    ghost asks: { Self → List ℕ → WishValue → Type 0 };

    /// Lets the player type. The client and the players that it knows are as they are then.
    fn rest(&mut self, client: &Client, directory: &Directory) -> Result<(), FrontFault>
        ensures { OnOk result (Self.tells self.old [] self.new) };

    /// What a typed line asks for, with the client and the players that it knows as they are. It may respell the line,
    /// and answer by itself.
    fn wish(
        &mut self,
        client: &Client,
        directory: &Directory,
        line: &mut TypedLine,
    ) -> Result<Wish, FrontFault>
        ensures told { OnOk result (Self.tells self.old [] self.new) }
        ensures asks { IfOk result (λ wish. asks self.old line.old.items (wish_value wish line.new.items)) };
}

/// The plain account has one spelling for each.
impl<W: Write> Words for Plain<'_, W> {
    ghost asks = { λ _ line wish. wish ≡ wish_of line };

    fn rest(&mut self, _client: &Client, _directory: &Directory) -> Result<(), FrontFault> {
        self.flush()
    }

    fn wish(
        &mut self,
        _client: &Client,
        _directory: &Directory,
        line: &mut TypedLine,
    ) -> Result<Wish, FrontFault> {
        Ok(wish_of(line.as_slice()))
    }
}
