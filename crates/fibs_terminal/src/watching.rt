//! What a terminal hears of a game that the user watches.
ghost use Rattle.std.specs.Prelude.{◌≡◌, ◌⊎◌, true, false};
ghost use Rattle.fibs_advice.specs.Seen.{begins_watching, ends_watching};
ghost use Rattle.fibs_terminal.specs.Boxes.{begun_watching, nothing_watched};
ghost use Rattle.fibs_terminal.specs.HeardTexts.{with_here, with_watched};

use crate::drawing::Watching;
use crate::own_rows::say_rows;
use crate::screen::Screen;
use fibs_advice::watched::{Seen, read_seen};
use fibs_fields::boards::Board;
use fibs_position::WatchedBoard;
use std::alloc::AllocError;

/// What is said if a game is watched, and no board of it has come.
const NO_BOARD_YET: &[u8] = b"board shows the game now, unwatch ends it.\n";

impl<'a> Screen<'a> {
    /// Hears a board on which the user does not play. If a side has too many checkers, it is shown as the server sent
    /// it.
    pub(crate) fn hear_watched(&mut self, line: &[u8], board: &Board) -> Result<(), AllocError>
        ensures program { self.new.memory.program ≡ record self.old.memory.program {
          above = self.new.memory.program.above;
        } }
        ensures here { self.new.memory.here ≡ with_watched self.old.memory.here self.new.memory.here }
    {
        let Some(watched) = WatchedBoard::of(board) else {
            return self.page.show_row(line);
        };
        let alloc = self.page.alloc;
        let here = &mut self.memory.here;
        let asked = here.situation.awaits_board();
        let said = here.said.as_slice();
        let converses = self.memory.program.converses;
        let above = &mut self.memory.program.above;
        here.watching
            .show(&watched, asked, converses, said, above, &mut self.page)?;
        here.said = Vec::new(alloc);
        self.hear_no_board(false);
        self.memory.here.greeting.hear_board();
        self.say_greeting()
    }

    /// Takes note of what a text says of a game that the user watches.
    pub(crate) fn note_watching(&mut self, said: &[u8]) -> Result<(), AllocError>
        ensures rest { self.new.memory ≡ with_here self.old.memory
            (record self.old.memory.here { watching = self.new.memory.here.watching }) }
        ensures begins { begins_watching said.now ≡ true →
            self.new.memory.here.watching ≡ begun_watching self.old.memory.here.watching }
        ensures ends { ends_watching said.now ≡ true → self.new.memory.here.watching ≡ nothing_watched }
        ensures others { begins_watching said.now ≡ false → ends_watching said.now ≡ false →
            (self.new.memory.here.watching ≡ self.old.memory.here.watching)
            ⊎ (self.new.memory.here.watching ≡ nothing_watched) }
    {
        match read_seen(said) {
            Some(Seen::Begins) => {
                self.memory.here.watching = self.memory.here.watching.begun();
                if !self.memory.here.watching.wants_board() {
                    return say_rows(NO_BOARD_YET, &mut self.page);
                }
            }
            Some(Seen::Ends) => self.memory.here.watching = Watching::new(),
            Some(Seen::Over(name)) if self.memory.here.watching.is_of(name) => {
                self.memory.here.watching = Watching::new();
            }
            _ => {}
        }
        Ok(())
    }
}
