//! Which events are refused.

ghost use Rattle.std.specs.Prelude.{◌≡◌, ℕ, List, slice_index};
ghost use Rattle.fibs_model.specs.Calls.{serve_refusal};
ghost use Rattle.fibs_model.specs.EventOf.{event_of};
ghost use Rattle.fibs_model.specs.LinksOf.{seen};
ghost use Rattle.fibs_model.specs.Refusals.{refusal};
ghost use Rattle.fibs_model.specs.World as W;
ghost use Rattle.fibs_model.specs.WorldOf.{StandsFor};

use super::World;
use super::link::Link;
use crate::Event;
use crate::machine::WorldRefusal;
use crate::server::own_refusal;
use crate::wire::{is_board_text, whole_line};
use fibs_position::is_die;

/// Why it is refused to serve a line of a connection.
#[tactic(auto, unfolding(crate::specs::Calls::serve_refusal))]
fn serve_refusal(
    links: &[Link],
    logged_in: usize,
    conn: usize,
    dice: [u8; 2],
) -> Option<WorldRefusal>
    ensures { result ≡ serve_refusal (seen links.now) logged_in conn (slice_index dice 0) (slice_index dice 1) }
{
    if conn == 0 || links.len() < conn {
        return Some(WorldRefusal::NoSuchConnection);
    }
    if !(is_die(dice[0]) && is_die(dice[1])) {
        return Some(WorldRefusal::BadDice);
    }
    let link = &links[conn - 1];
    if conn < logged_in || whole_line(link.to_server.bytes()).is_none() {
        return Some(WorldRefusal::NothingToServe);
    }
    None
}

impl World {
    /// Why the event is refused. That memory may run out is no part of it.
    pub(super) fn refusal(&self, event: &Event<'_>) -> Option<WorldRefusal>
        ensures { (login : List ℕ) (w : W.World) → StandsFor self.now login w →
            result ≡ refusal w (event_of event.now) }
    {
        match event {
            Event::Open => {
                if self.current == 0 {
                    None
                } else {
                    Some(WorldRefusal::AlreadyOpen)
                }
            }
            Event::Deliver(_) | Event::Lose(_) => {
                if self.current == 0 {
                    Some(WorldRefusal::NotOpen)
                } else {
                    None
                }
            }
            Event::Serve { conn, dice } => {
                serve_refusal(&self.links, self.server.logged_in(), *conn, *dice)
            }
            Event::Own(board) => own_refusal(&self.server, board),
            Event::Text(line) => {
                if is_board_text(line) {
                    Some(WorldRefusal::BoardAsText)
                } else {
                    None
                }
            }
            Event::Click(_) | Event::Plain(_) | Event::Repeat | Event::Order | Event::Withdraw =>
                None,
        }
    }
}
