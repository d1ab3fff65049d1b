//! Bytes go to the client.

ghost use Rattle.std.specs.Prelude.{◌≡◌, ◌≤◌, ◌<◌, ◌+◌, ◌*◌, count_by, length, map, take, drop, vec_len, vec_capacity, if◌then◌else◌, IfSome, true, OnOk, OnErr, IsErrOf};
ghost use Rattle.fibs_lines.specs.Lines.{is_line_end};
ghost use Rattle.fibs_model.specs.Crossings.{crossings_in};
ghost use Rattle.fibs_model.specs.EntryOf.{entry_of};
ghost use Rattle.fibs_model.specs.Events as E;
ghost use Rattle.fibs_model.specs.HearingOf.{HearsPiece, HearsNext, RoomForPiece, RoomForNext};
ghost use Rattle.fibs_model.specs.LinksOf.{seen, link_at};
ghost use Rattle.fibs_model.specs.WorldOf.{May, Goes};

use super::World;
use super::crossing::cross_to_client;
use super::hearing::hear_all;
use super::link::Link;
use super::links::make_room;
use crate::Entry;
use crate::carriers::Carrier;
use crate::halt::Halt;
use crate::wire::line_ends;
use fibs_session::Client;
use std::alloc::AllocError;

/// The most bytes of commands that the lines of a connection make the client hand out if no standing order is given.
const OWED: usize = 62;

/// The bytes of `roll` with its line end.
const ROLL: usize = 6;

/// What lines may add at the most: entries to the log, and bytes of commands to the wire.
#[derive(Clone, Copy)]
struct Growth {
    entries: usize,
    bytes: usize,
}

/// What so many lines may add; if a standing order is given it may roll at each of them. None if that is more
/// than can be counted.
fn most_added(lines: usize, ordered: bool) -> Option<Growth>
    ensures entries { IfSome result (λ most. most.entries ≡ (if ordered then 2 * lines else lines)) }
    ensures bytes { IfSome result (λ most. most.bytes ≡ 62 + (if ordered then 6 * lines else 0)) }
{
    if !ordered {
        return Some(Growth {
            entries: lines,
            bytes: OWED,
        });
    }
    Some(Growth {
        entries: lines.checked_mul(2)?,
        bytes: lines.checked_mul(ROLL)?.checked_add(OWED)?,
    })
}

/// How many line ends there are among the next bytes to the client of a connection.
fn ends_ahead(links: &[Link], conn: usize, n: usize) -> usize
    requires some { 0 < conn }
    requires known { conn ≤ length links.now }
    ensures { result ≡ count_by is_line_end (take n (link_at (seen links.now) conn).coming) }
{
    line_ends(links[conn - 1].to_client.next(n))
}

/// The next bytes go to the client, which has room for all that they add.
fn hear_link(client: &mut Client, conn: usize, link: &mut Link, n: usize, log: &mut Vec<Entry>)
    requires some { 0 < conn }
    requires room { RoomForPiece client.old conn (take n link.old.to_client.items) (vec_len log.old)
        (vec_capacity log.old) link.old.to_server.room }
    ensures hears { HearsPiece client.old client.new conn (take n link.old.to_client.items)
        (map entry_of log.old.items) (map entry_of log.new.items) link.old.to_server.items link.new.to_server.items }
    ensures left { link.new.to_client.items
        ≡ drop (length (take n link.old.to_client.items)) link.old.to_client.items }
    ensures fresh { link.new.fresh ≡ link.old.fresh }
{
    let piece = link.to_client.next(n);
    let len = piece.len();
    hear_all(client, conn, piece, log, &mut link.to_server);
    link.to_client.take(len);
}

/// The next bytes of a connection go to the client.
fn hear_next(
    client: &mut Client,
    links: &mut Vec<Link>,
    conn: usize,
    n: usize,
    log: &mut Vec<Entry>,
)
    requires some { 0 < conn }
    requires known { conn ≤ vec_len links.old }
    requires room { RoomForNext client.old conn n links.old.items (vec_len log.old) (vec_capacity log.old) }
    ensures hears { HearsNext client.old client.new conn n (seen links.old.items) (seen links.new.items)
        (map entry_of log.old.items) (map entry_of log.new.items) }
    ensures len { vec_len links.new ≡ vec_len links.old }
{
    hear_link(client, conn, &mut links[conn - 1], n, log);
}

impl World {
    /// The next `n` bytes go to the client, or all if they are fewer.
    pub(super) fn deliver<C: Carrier>(&mut self, carrier: &mut C, n: usize) -> Result<(), Halt>
        requires may { May self.old (E.Deliver n) }
        ensures ok { OnOk result (Goes self.old self.new (E.Deliver n)) }
        ensures err { OnErr result (self.new ≡ self.old) }
        ensures carries { OnOk result (C.carries carrier.old (crossings_in self.old (E.Deliver n)) carrier.new) }
        ensures untouched { IsErrOf result Halt.Memory → carrier.new ≡ carrier.old }
        ensures unbroken { IsErrOf result Halt.Broken → C.may_break ≡ true }
    {
        let ends = ends_ahead(&self.links, self.current, n);
        let most = most_added(ends, self.client.ordered()).ok_or(AllocError)?;
        make_room(&mut self.links, self.current, 0, most.bytes)?;
        self.log.reserve(most.entries)?;
        cross_to_client(carrier, &self.links, self.current, n)?;
        hear_next(
            &mut self.client,
            &mut self.links,
            self.current,
            n,
            &mut self.log,
        );
        Ok(())
    }
}
