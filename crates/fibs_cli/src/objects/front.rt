//! The front end of `fibs connect --json`: it prints an object for each line of the plain account.
ghost use Rattle.std.specs.Prelude.{◌≡◌};

use crate::objects::said::append_said;
use fibs_connect::fault::FrontFault;
use fibs_connect::front::Front;
use fibs_connect::printing::print;
use fibs_connect::said::Said;
use fibs_connect::typed_line::TypedLine;
use fibs_connect::wish::{Wish, wish_of};
use fibs_connect::words::Words;
use fibs_engine::fault::EngineFault;
use fibs_session::{Client, Directory};
use std::alloc::Global;
use std::io::Write;

/// A front end that prints a JSON object for each line that the plain account prints.
#[derive(Drop)]
pub struct Objects<'a, W: Write> {
    out: &'a mut W,
    text: Vec<u8>,
    out_of_memory: bool,
}

impl<'a, W: Write> Objects<'a, W> {
    /// One that prints here. Nothing was reported to it.
    pub fn new(alloc: Global, out: &'a mut W) -> Objects<'a, W> {
        Objects {
            out,
            text: Vec::new(alloc),
            out_of_memory: false,
        }
    }

    /// Whether it failed since memory ran out.
    pub fn is_out_of_memory(&self) -> bool {
        self.out_of_memory
    }
}

impl<W: Write> Front for Objects<'_, W> {
    ghost use Rattle.fibs_cli.specs.Said.{ObjectAccounts, objects_nothing, objects_joined};
    ghost use Rattle.std.proofs.Common.{refl, ◌∙◌};

    ghost tells = { λ a told b. (b.out.ghost_name ≡ a.out.ghost_name)
        × ObjectAccounts (W.contents a.out.now) told (W.contents b.out.now) };

    fn tell(&mut self, said: &Said<'_>) -> Result<(), FrontFault> {
        self.text.clear();
        match append_said(said, &mut self.text) {
            Ok(()) => print(self.text.as_slice(), self.out),
            Err(why) => {
                self.out_of_memory = why == EngineFault::Memory;
                Err(FrontFault::Output)
            }
        }
    }

    fn flush(&mut self) -> Result<(), FrontFault> {
        self.out.flush().map_err(|_| FrontFault::Output)
    }

    ghost joins = { record {
      nothing = λ a. (refl, objects_nothing (W.contents a.out.now));
      joined = λ a b c xs ys p q. (
        q.0 ∙ p.0,
        objects_joined (W.contents a.out.now) (W.contents b.out.now) (W.contents c.out.now) xs ys p.1 q.1,
      );
    } };
}

/// It has the words of the plain account.
impl<W: Write> Words for Objects<'_, W> {
    ghost use Rattle.fibs_connect.specs.Wishes.{wish_of};

    ghost asks = { λ _ line wish. wish ≡ wish_of line };

    fn rest(&mut self, _client: &Client, _directory: &Directory) -> Result<(), FrontFault> {
        self.flush()
    }

    fn wish(
        &mut self,
        _client: &Client,
        _directory: &Directory,
        line: &mut TypedLine,
    ) -> Result<Wish, FrontFault> {
        Ok(wish_of(line.as_slice()))
    }
}
