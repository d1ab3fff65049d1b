//! What brings a world to rest.

ghost use Rattle.std.specs.Prelude.{◌≡◌, ◌≤◌, ◌+◌, ℕ, List, length, slice_index, option_map};
ghost use Rattle.fibs_model.specs.CanRest.{asked_now, next_to_rest};
ghost use Rattle.fibs_model.specs.World as W;
ghost use Rattle.fibs_model.specs.Calls.{next_on};
ghost use Rattle.fibs_model.specs.LinksOf.{link_of};
ghost use Rattle.fibs_model.specs.Settling.{settle_refusal};
ghost use Rattle.fibs_model.specs.WorldOf.{StandsFor};
ghost use Rattle.fibs_model.specs.EventOf.{event_of};

use super::World;
use super::link::Link;
use crate::Event;
use crate::machine::WorldRefusal;
use crate::wire::whole_line;
use fibs_position::is_die;

/// By how much the events on the way to rest may be more than the lines that are on their way to the server.
const MORE: usize = 8;

/// What comes next on the wires of a connection: the server takes its next line, or else all bytes to the client are
/// delivered.
fn next_on(link: &Link, conn: usize, dice: [u8; 2]) -> Option<Event<'static>>
    ensures { option_map event_of result
        ≡ next_on (link_of link.now) conn (slice_index dice 0) (slice_index dice 1) }
{
    if whole_line(link.to_server.bytes()).is_some() {
        return Some(Event::Serve { conn, dice });
    }
    match link.to_client.bytes().len() {
        0 => None,
        len => Some(Event::Deliver(len)),
    }
}

impl World {
    /// Why the world cannot be brought to rest.
    pub(super) fn settle_refusal(&self, dice: [u8; 2]) -> Option<WorldRefusal>
        ensures { (login : List ℕ) (w : W.World) → StandsFor self.now login w →
            result ≡ settle_refusal (slice_index dice 0) (slice_index dice 1) w }
    {
        if self.current == 0 {
            return Some(WorldRefusal::NotOpen);
        }
        if !(is_die(dice[0]) && is_die(dice[1])) {
            return Some(WorldRefusal::BadDice);
        }
        None
    }

    /// At least as many events as there may be on the way to rest: a line has bytes.
    pub(super) fn most_to_rest(&self) -> usize
        ensures { (login : List ℕ) (w : W.World) → StandsFor self.now login w → length (asked_now w) + 8 ≤ result }
    {
        if self.current == 0 {
            return MORE;
        }
        self.links[self.current - 1].to_server.bytes().len() + MORE
    }

    /// What comes next on the way to rest: the server takes the next line of the open connection; if there is none, all
    /// bytes on their way to the client are delivered; if there are none either, nothing comes.
    pub(super) fn next_to_rest(&self, dice: [u8; 2]) -> Option<Event<'static>>
        ensures { (login : List ℕ) (w : W.World) → StandsFor self.now login w →
            option_map event_of result ≡ next_to_rest (slice_index dice 0) (slice_index dice 1) w }
    {
        if self.current == 0 {
            return None;
        }
        next_on(&self.links[self.current - 1], self.current, dice)
    }
}
