//! The server sends something by itself.

ghost use Rattle.std.specs.Prelude.{◌≡◌, OnOk, OnErr};
ghost use Rattle.fibs_fields.specs.StoredBoard.{fields_of};
ghost use Rattle.fibs_model.specs.Events as E;
ghost use Rattle.fibs_model.specs.WorldOf.{May, Goes};

use super::World;
use super::links::{BOARD, make_room, send_line};
use fibs_fields::boards::Board;
use std::alloc::AllocError;

impl World {
    /// The server's board becomes this one, and is sent.
    pub(super) fn own(&mut self, board: &Board) -> Result<(), AllocError>
        requires may { May self.old (E.Own (fields_of board.now)) }
        ensures ok { OnOk result (Goes self.old self.new (E.Own (fields_of board.now))) }
        ensures err { OnErr result (self.new ≡ self.old) }
    {
        fibs_session::client::laws::servers_entries_are_silent();
        make_room(&mut self.links, self.current, BOARD, 0)?;
        self.server.own(board).unwrap();
        let line = board.print();
        send_line(
            &mut self.links,
            self.current,
            self.server.logged_in(),
            &line,
        );
        Ok(())
    }

    /// The server's board is sent again.
    pub(super) fn repeat(&mut self) -> Result<(), AllocError>
        ensures ok { OnOk result (Goes self.old self.new E.Repeat) }
        ensures err { OnErr result (self.new ≡ self.old) }
    {
        fibs_session::client::laws::servers_entries_are_silent();
        make_room(&mut self.links, self.current, BOARD, 0)?;
        let line = self.server.board().print();
        send_line(
            &mut self.links,
            self.current,
            self.server.logged_in(),
            &line,
        );
        Ok(())
    }

    /// The server sends a line.
    pub(super) fn text(&mut self, line: &[u8]) -> Result<(), AllocError>
        requires may { May self.old (E.Text line.now) }
        ensures ok { OnOk result (Goes self.old self.new (E.Text line.now)) }
        ensures err { OnErr result (self.new ≡ self.old) }
    {
        fibs_session::client::laws::servers_entries_are_silent();
        make_room(
            &mut self.links,
            self.current,
            line.len().saturating_add(2),
            0,
        )?;
        send_line(&mut self.links, self.current, self.server.logged_in(), line);
        Ok(())
    }
}
