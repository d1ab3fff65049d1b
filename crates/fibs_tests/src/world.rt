//! How a world goes on after a refused growth.

use crate::boards::{MUST_ROLL, ROLLED};
use crate::lines::{INFO, INFO_NO_BOARDS, WELCOME};
use fibs_fields::boards::Board;
use fibs_model::{Event, World, WorldRefusal};
use fibs_position::Decision;
use fibs_session::Login;
use std::process::Abort;

fn board(line: &[u8]) -> Option<Board> {
    Board::read(line).ok()
}

fn world(rt: &(impl Abort + AllocGlobal), line: &[u8]) -> World {
    let board = board(line).expect(rt, "it is a board");
    let login = Login::new(b"ann", b"secret").expect(rt, "it is a login");
    World::new(rt.alloc(), board, login).expect(rt, "it is a good board")
}

/// How many of the events are done in a row, and why the next is refused.
fn run_in_a_row(world: &mut World, events: &[Event<'_>]) -> (usize, Option<WorldRefusal>) {
    let end = world.run(events);
    (end.done, end.refusal)
}

/// The events of a roll by an order that was given twice.
fn ordered_twice() -> [Event<'static>; 14] {
    let serve = Event::Serve {
        conn: 1,
        dice: [6, 2],
    };
    [
        Event::Open,
        Event::Order,
        Event::Order,
        serve,
        Event::Text(WELCOME),
        Event::Text(INFO),
        Event::Deliver(10000),
        serve,
        serve,
        Event::Deliver(10000),
        Event::Click(Decision::Roll),
        serve,
        Event::Withdraw,
        Event::Deliver(10000),
    ]
}

/// How many of the events are done, and why one is refused, if the run goes on after a growth that is refused.
fn run_on(world: &mut World, events: &[Event<'_>]) -> (usize, Option<WorldRefusal>) {
    let (done, refusal) = run_in_a_row(world, events);
    if refusal != Some(WorldRefusal::Memory) {
        return (done, refusal);
    }
    let rest = events.get(done..).unwrap_or(&[]);
    let (more, refusal) = run_in_a_row(world, rest);
    (done.saturating_add(more), refusal)
}

/// A run that meets a refused growth says how many events were done, and a run of the others does them.
#[test]
fn a_run_goes_on_under_refused_memory(rt: HostRuntime) {
    let mut world = world(&rt, MUST_ROLL);
    let rolled = board(ROLLED).expect(&rt, "it is a board");
    let is_done = run_on(&mut world, &ordered_twice()) == (14, None);
    let is_shown = world.shown() == Some(&rolled);
    assert!(rt; is_done && is_shown && world.log().len() == 12);
}

/// Both messages are on their way, and an order will be due at the board that answers what they call for. No line is on
/// its way to the server.
fn before_the_longest_way() -> [Event<'static>; 5] {
    [
        Event::Open,
        Event::Serve {
            conn: 1,
            dice: [1, 1],
        },
        Event::Order,
        Event::Text(WELCOME),
        Event::Text(INFO_NO_BOARDS),
    ]
}

/// How many events bring the world to rest, and why one is refused.
fn settle(world: &mut World, dice: [u8; 2]) -> (usize, Option<WorldRefusal>) {
    let end = world.settle(dice);
    (end.done, end.refusal)
}

/// How many events bring the world to rest, if it goes on after a growth that is refused.
fn settle_on(world: &mut World, dice: [u8; 2]) -> (usize, Option<WorldRefusal>) {
    let (done, refusal) = settle(world, dice);
    if refusal != Some(WorldRefusal::Memory) {
        return (done, refusal);
    }
    let (more, refusal) = settle(world, dice);
    (done.saturating_add(more), refusal)
}

#[test]
fn a_world_settles_under_refused_memory(rt: HostRuntime) {
    let mut world = world(&rt, MUST_ROLL);
    let rolled = board(ROLLED).expect(&rt, "it is a board");
    let is_begun = run_on(&mut world, &before_the_longest_way()) == (5, None);
    let is_settled = settle_on(&mut world, [6, 2]) == (8, None);
    assert!(rt; is_begun && is_settled && world.shown() == Some(&rolled));
}
