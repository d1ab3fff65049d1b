//! The server takes a line.

ghost use Rattle.std.specs.Prelude.{◌≡◌, ◌≤◌, ◌<◌, ◌+◌, ℕ, true, length, OnOk, OnErr, IsErrOf, IsSome, vec_len, slice_index, if◌then◌else◌};
ghost use Rattle.fibs_fields.specs.Board.{spelling};
ghost use Rattle.fibs_model.specs.Calls.{send_links, TakesLine, TakesNext};
ghost use Rattle.fibs_model.specs.Crossings.{crossings_in};
ghost use Rattle.fibs_model.specs.Events as E;
ghost use Rattle.fibs_model.specs.LinksOf.{seen, link_at, RoomToClient};
ghost use Rattle.fibs_model.specs.ServerOf.{is_answered, served_of};
ghost use Rattle.fibs_model.specs.Wires.{next_line};
ghost use Rattle.fibs_model.specs.WorldOf.{May, Goes};

use super::World;
use super::crossing::cross_line;
use super::hearing::note;
use super::link::Link;
use super::links::{BOARD, make_room, send_line};
use crate::carriers::Carrier;
use crate::halt::Halt;
use crate::wire::whole_line;
use crate::{Served, Server};

/// The server takes the next line of a connection.
fn take_line(server: &mut Server, link: &mut Link, conn: usize, len: usize, dice: [u8; 2]) -> Served
    requires some { 1 ≤ conn }
    requires whole { len + 2 ≤ length link.old.to_server.items }
    ensures takes { TakesLine server.old server.new link.old link.new conn len (slice_index dice 0) (slice_index dice 1)
        (served_of result server.new.board) }
    ensures to_client { link.new.to_client ≡ link.old.to_client }
{
    let served = server.serve(conn, link.fresh, &link.to_server.bytes()[..len], dice);
    link.to_server.take(len + 2);
    link.fresh = false;
    served
}

/// The server takes the next line of a connection, which is there.
fn take_next(server: &mut Server, links: &mut Vec<Link>, conn: usize, dice: [u8; 2]) -> Served
    requires some { 1 ≤ conn }
    requires known { conn ≤ vec_len links.old }
    requires whole { IsSome (next_line (link_at (seen links.old.items) conn).asked) }
    ensures takes { TakesNext server.old server.new (seen links.old.items) (seen links.new.items) conn
        (slice_index dice 0) (slice_index dice 1) (served_of result server.new.board) }
    ensures len { vec_len links.new ≡ vec_len links.old }
    ensures room { (c n : ℕ) → 0 < c → RoomToClient links.old.items c n → RoomToClient links.new.items c n }
{
    let link = &mut links[conn - 1];
    let len = whole_line(link.to_server.bytes()).unwrap();
    take_line(server, link, conn, len, dice)
}

/// Answers a line by the board, if it is answered.
fn answer_line(server: &Server, links: &mut Vec<Link>, conn: usize, served: Served)
    requires known { conn ≤ vec_len links.old }
    requires room { 0 < conn → RoomToClient links.old.items conn 331 }
    ensures value { seen links.new.items ≡ (if is_answered (served_of served server.now.board)
        then send_links server.now.logged_in conn (seen links.old.items) (spelling server.now.board)
        else seen links.old.items) }
    ensures len { vec_len links.new ≡ vec_len links.old }
{
    if served.is_answered() {
        let line = server.board().print();
        send_line(links, conn, server.logged_in(), &line);
    }
}

impl World {
    /// The server takes the next whole line of a connection.
    pub(super) fn serve<C: Carrier>(
        &mut self,
        carrier: &mut C,
        conn: usize,
        dice: [u8; 2],
    ) -> Result<(), Halt>
        requires may { May self.old (E.Serve conn (slice_index dice 0) (slice_index dice 1)) }
        ensures ok { OnOk result (Goes self.old self.new (E.Serve conn (slice_index dice 0) (slice_index dice 1))) }
        ensures err { OnErr result (self.new ≡ self.old) }
        ensures carries { OnOk result (C.carries carrier.old
            (crossings_in self.old (E.Serve conn (slice_index dice 0) (slice_index dice 1))) carrier.new) }
        ensures untouched { IsErrOf result Halt.Memory → carrier.new ≡ carrier.old }
        ensures unbroken { IsErrOf result Halt.Broken → C.may_break ≡ true }
    {
        fibs_session::client::laws::servers_entries_are_silent();
        self.log.reserve(1)?;
        make_room(&mut self.links, self.current, BOARD, 0)?;
        cross_line(carrier, &self.links, self.current, conn)?;
        let board = *self.server.board();
        let served = take_next(&mut self.server, &mut self.links, conn, dice);
        note(&mut self.log, served.entry(conn, board));
        answer_line(&self.server, &mut self.links, self.current, served);
        Ok(())
    }
}
