//! The world: a server, a client, and the wires between them.

ghost use Rattle.std.specs.Prelude.{◌≡◌, ◌≤◌, ◌↔◌, ◌++◌, ℕ, List, [], None, Some, Option, IfOk, OnErr, true, IsErrOf, OnOk, length, map, take, drop, option_map, slice_index, if◌then◌else◌};
ghost use Rattle.std.specs.Option.{option_copied};
ghost use Rattle.std.specs.Result.{result_err};
ghost use Rattle.fibs_fields.specs.Board.{BoardFields};
ghost use Rattle.fibs_fields.specs.StoredBoard.{fields_of};
ghost use Rattle.fibs_position.specs.GoodBoard.{good};
ghost use Rattle.fibs_session.specs.History.Words.{last, shown, open_now};
ghost use Rattle.fibs_commands.specs.LoginOf.{name_of, password_of};
ghost use Rattle.fibs_commands.specs.Logins.{login_text};
ghost use Rattle.fibs_model.specs.Crossings.{crossings_of};
ghost use Rattle.fibs_model.specs.Settling.{Settled, settle_refusal};
ghost use Rattle.fibs_model.specs.EntryOf.{entry_of};
ghost use Rattle.fibs_model.specs.EventOf.{event_of};
ghost use Rattle.fibs_model.specs.Events as E;
ghost use Rattle.fibs_model.specs.Headline.{AllAtMost, Headline};
ghost use Rattle.fibs_model.specs.Once.{Once};
ghost use Rattle.fibs_model.specs.Refusals.{refusal};
ghost use Rattle.fibs_model.specs.WorldCalls.{WorldStandsAfter, machine_after, Agrees, Halts, Stops, accepted};

mod clicking;
mod crossing;
mod delivering;
mod hearing;
mod link;
mod links;
mod losing;
mod opening;
mod ordering;
mod refusing;
mod sending;
mod serving;
mod settling;
mod stepping;

use crate::carriers::{Carrier, InMemory};
use crate::halt::{Halt, Stop};
use crate::machine::WorldRefusal;
use crate::run_end::RunEnd;
use crate::{Entry, Event, Server, laws};
use fibs_fields::boards::Board;
use fibs_session::{Client, Login};
use link::Link;
use std::alloc::Global;
use std::marker::Model;

/// A model of a server, a client, the wires of each of their connections, and the log of what happened.
///
/// `new` makes one, `step` and `run` do events, and `log` says what they led to: a function of the first board and of
/// the events, in which all choices are. Of every list of events the headline holds.
///
/// `carry_out` does an event over a carrier, which the bytes cross that pass from one side to the other; `step` and
/// `run` have one that has nothing to carry.
#[derive(Drop)]
pub struct World {
    alloc: Global,
    server: Server,
    client: Client,
    links: Vec<Link>,
    log: Vec<Entry>,
    /// The connection that is open, or 0.
    current: usize,
}

impl Model for World {
    ghost use Rattle.fibs_model.specs.WorldOf.{WorldValue, world_of, IsKept};

    ghost Value = { WorldValue };

    ghost view = { world_of };

    ghost invariant = { IsKept };
}

impl World {
    ghost use Rattle.fibs_game.specs.declared.world_refusal.WorldRefusal.TheVariants.{BadBoard};

    /// A world in which nothing has happened, with a first board of the server and the login of the user.
    ///
    /// `BadBoard` if the board is not good, and no other refusal.
    pub fn new(alloc: Global, board: Board, login: Login) -> Result<World, WorldRefusal>
        ensures refusal { result_err result ≡ (if good (fields_of board) then None else Some BadBoard) }
        ensures stands { IfOk result (λ world.
            WorldStandsAfter world (name_of login) (password_of login) (fields_of board) []) }
    {
        fibs_position::laws::good_is_exact();
        match Server::new(board) {
            Err(_) => Err(WorldRefusal::BadBoard),
            Ok(server) => Ok(World {
                alloc,
                server,
                client: Client::new(login),
                links: Vec::new(alloc),
                log: Vec::new(alloc),
                current: 0,
            }),
        }
    }

    /// Does one event, or says why it is refused: the first refusal of the event's line, and `Memory` only if no
    /// other holds. A refused event changes nothing.
    pub fn step(&mut self, event: &Event<'_>) -> Result<(), WorldRefusal>
        ensures refusal { (name password : List ℕ) (first : BoardFields) (events : List E.Event) →
            WorldStandsAfter self.old name password first events →
            Agrees (result_err result) (refusal (machine_after name password first events) (event_of event.now)) }
        ensures refused { OnErr result (self.new ≡ self.old) }
        ensures stands { (name password : List ℕ) (first : BoardFields) (events : List E.Event) →
            WorldStandsAfter self.old name password first events →
            WorldStandsAfter self.new name password first (events ++ accepted result (event_of event.now)) }
        ensures headline { (name password : List ℕ) (first : BoardFields) (events : List E.Event) →
            WorldStandsAfter self.old name password first events →
            Headline (machine_after name password first (events ++ accepted result (event_of event.now))) }
        ensures once { (name password : List ℕ) (first : BoardFields) (events : List E.Event) →
            WorldStandsAfter self.old name password first events →
            Once (login_text name password) first (events ++ accepted result (event_of event.now)) }
    {
        match self.carry_out(&mut InMemory, event) {
            Ok(()) => Ok(()),
            Err(Stop::Refused(why)) => Err(why),
            Err(Stop::Broken) => unreachable!(),
        }
    }

    /// Does one event, whose bytes cross a carrier, or says why it is not done: the first refusal of the event's
    /// line; `Memory` only if no other holds; `Broken` only if none holds and the carrier may break. An event that is
    /// not done changes nothing: the memory that it needs is reserved first, then its bytes cross, and after that
    /// nothing can fail.
    ///
    /// The carrier is given what crosses at the event and nothing else, and nothing at an event that is refused.
    pub fn carry_out<C: Carrier>(&mut self, carrier: &mut C, event: &Event<'_>) -> Result<(), Stop>
        ensures refusal { (name password : List ℕ) (first : BoardFields) (events : List E.Event) →
            WorldStandsAfter self.old name password first events →
            Halts (result_err result) (refusal (machine_after name password first events) (event_of event.now)) }
        ensures unbroken { IsErrOf result Stop.Broken → C.may_break ≡ true }
        ensures refused { OnErr result (self.new ≡ self.old) }
        ensures carries { (name password : List ℕ) (first : BoardFields) (events : List E.Event) →
            WorldStandsAfter self.old name password first events →
            OnOk result (C.carries carrier.old
            (crossings_of (machine_after name password first events) (event_of event.now)) carrier.new) }
        ensures untouched { (why : WorldRefusal) →
            result_err result ≡ Some (Stop.Refused why) → carrier.new ≡ carrier.old }
        ensures stands { (name password : List ℕ) (first : BoardFields) (events : List E.Event) →
            WorldStandsAfter self.old name password first events →
            WorldStandsAfter self.new name password first (events ++ accepted result (event_of event.now)) }
        ensures headline { (name password : List ℕ) (first : BoardFields) (events : List E.Event) →
            WorldStandsAfter self.old name password first events →
            Headline (machine_after name password first (events ++ accepted result (event_of event.now))) }
        ensures once { (name password : List ℕ) (first : BoardFields) (events : List E.Event) →
            WorldStandsAfter self.old name password first events →
            Once (login_text name password) first (events ++ accepted result (event_of event.now)) }
    {
        laws::headline();
        laws::once();
        match self.refusal(event) {
            Some(why) => Err(Stop::Refused(why)),
            None => match self.take(carrier, event) {
                Ok(()) => Ok(()),
                Err(Halt::Memory) => Err(Stop::Refused(WorldRefusal::Memory)),
                Err(Halt::Broken) => Err(Stop::Broken),
            },
        }
    }

    /// Does the events, one after another, up to the first that is refused; says how many it did, and why it stopped.
    ///
    /// The world is then reached by the events before and those done. Of this whole list the headline holds, and that
    /// no two decisions took effect on one game unless a board of the server's own came between them.
    pub fn run(&mut self, events: &[Event<'_>]) -> RunEnd
        ensures within { result.done ≤ length events.now }
        ensures all { result.refusal ≡ None ↔ result.done ≡ length events.now }
        ensures stops { (name password : List ℕ) (first : BoardFields) (before : List E.Event) →
            WorldStandsAfter self.old name password first before →
            Stops result.refusal
            (machine_after name password first (before ++ take result.done (map event_of events.now)))
            (drop result.done (map event_of events.now)) }
        ensures stands { (name password : List ℕ) (first : BoardFields) (before : List E.Event) →
            WorldStandsAfter self.old name password first before →
            WorldStandsAfter self.new name password first (before ++ take result.done (map event_of events.now)) }
        ensures log { (name password : List ℕ) (first : BoardFields) (before : List E.Event) →
            WorldStandsAfter self.old name password first before →
            self.new.log
            ≡ (machine_after name password first (before ++ take result.done (map event_of events.now))).log }
        ensures headline { (name password : List ℕ) (first : BoardFields) (before : List E.Event) →
            WorldStandsAfter self.old name password first before →
            Headline (machine_after name password first (before ++ take result.done (map event_of events.now))) }
        ensures once { (name password : List ℕ) (first : BoardFields) (before : List E.Event) →
            WorldStandsAfter self.old name password first before →
            Once (login_text name password) first (before ++ take result.done (map event_of events.now)) }
    {
        laws::headline();
        laws::once();
        let mut done = 0;
        for event in events {
            match self.step(event) {
                Ok(()) => done += 1,
                Err(why) => {
                    return RunEnd {
                        done,
                        refusal: Some(why),
                    };
                }
            }
        }
        RunEnd {
            done,
            refusal: None,
        }
    }

    /// Brings the world to rest, with these dice: the server takes the lines of the open connection, and the bytes on
    /// their way to the client are delivered, until there are none. Says how many events it did.
    ///
    /// The board that the client then shows is the one that the server has. `NotOpen` if no connection is open, then
    /// `BadDice` if one of the two is no die; nothing is done then. `Memory` only if neither holds: the world is
    /// reached by the events done, and a further call goes on.
    pub fn settle(&mut self, dice: [u8; 2]) -> RunEnd
        ensures refusal { (name password : List ℕ) (first : BoardFields) (before : List E.Event) →
            WorldStandsAfter self.old name password first before →
            Agrees result.refusal
            (settle_refusal (slice_index dice 0) (slice_index dice 1) (machine_after name password first before)) }
        ensures settles { (name password : List ℕ) (first : BoardFields) (before : List E.Event) →
            WorldStandsAfter self.old name password first before →
            Settled self.new name password first before (slice_index dice 0) (slice_index dice 1)
            result.done result.refusal }
    {
        laws::agrees();
        laws::can_rest();
        match self.settle_refusal(dice) {
            Some(why) => {
                return RunEnd {
                    done: 0,
                    refusal: Some(why),
                };
            }
            None => {}
        }
        let most = self.most_to_rest();
        for done in 0..most {
            let event = match self.next_to_rest(dice) {
                Some(event) => event,
                None => {
                    return RunEnd {
                        done,
                        refusal: None,
                    };
                }
            };
            match self.step(&event) {
                Ok(()) => {}
                Err(why) => {
                    return RunEnd {
                        done,
                        refusal: Some(why),
                    };
                }
            }
        }
        RunEnd {
            done: most,
            refusal: None,
        }
    }

    /// The board that the client shows.
    pub fn shown(&self) -> Option<&Board>
        ensures { (name password : List ℕ) (first : BoardFields) (events : List E.Event) →
            WorldStandsAfter self.now name password first events →
            option_map fields_of (option_copied result)
            ≡ last (shown (open_now (machine_after name password first events).log)
            (machine_after name password first events).log) }
    {
        self.client.shown()
    }

    /// What happened, the oldest first. No connection's number is above the number of entries.
    pub fn log(&self) -> &[Entry]
        ensures value { map entry_of result.now ≡ self.now.log }
        ensures log { (name password : List ℕ) (first : BoardFields) (events : List E.Event) →
            WorldStandsAfter self.now name password first events →
            map entry_of result.now ≡ (machine_after name password first events).log }
        ensures numbers { (name password : List ℕ) (first : BoardFields) (events : List E.Event) →
            WorldStandsAfter self.now name password first events →
            let log = map entry_of result.now in AllAtMost (length log) log }
    {
        laws::headline();
        &self.log
    }
}
