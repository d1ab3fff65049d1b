//! Laws of the client, and of its history, for proofs in the crates above. Each function does nothing: its contract is
//! the law.

ghost use Rattle.fibs_session.specs.Calls.ClientLaws.{InputsGoOn, ServersEntriesAreSilent};

pub use crate::histories::laws::{
    a_due_order_says, empty_piece_is_nothing, lines_open_no_connection, pieces_join,
    pieces_take_from_the_entries_owed, pieces_take_from_what_is_owed,
};

/// What a server notes changes nothing for a client.
#[tactic(auto, using(crate::proofs::History::GoesOn::servers_silent))]
pub fn servers_entries_are_silent()
    ensures { ServersEntriesAreSilent }
{}

/// A call appends its input to the list of inputs by which a client is reached.
#[tactic(auto, using(crate::proofs::History::GoesOn::inputs_go_on))]
pub fn inputs_go_on()
    ensures { InputsGoOn }
{}
