//! The user decides, or says something else.

ghost use Rattle.std.specs.Prelude.{◌≡◌, ◌≤◌, ◌+◌, ◌++◌, OnOk, OnErr, map, vec_len, vec_capacity, option_map};
ghost use Rattle.fibs_fields.specs.StoredBoard.{fields_of};
ghost use Rattle.fibs_position.specs.DecisionValue.{decision_of};
ghost use Rattle.fibs_session.specs.Calls.SessionOf.{refusal_in};
ghost use Rattle.fibs_commands.specs.PlainOf.{plain_value};
ghost use Rattle.fibs_model.specs.Calls.{click_entries};
ghost use Rattle.fibs_model.specs.EntryOf.{entry_of};
ghost use Rattle.fibs_model.specs.Events as E;
ghost use Rattle.fibs_model.specs.WorldOf.{Goes};

use super::World;
use super::links::{COMMAND, hand_out, make_room};
use crate::Entry;
use fibs_fields::boards::Board;
use fibs_position::Decision;
use fibs_session::{CommandText, Plain, Refusal};
use std::alloc::AllocError;

/// Notes a click with its answer and, if that is yes, what was sent on the board shown.
fn note_click(
    log: &mut Vec<Entry>,
    conn: usize,
    decision: &Decision,
    answer: &Result<CommandText, Refusal>,
    shown: Option<Board>,
)
    requires room { vec_len log.old + 2 ≤ vec_capacity log.old }
    ensures { map entry_of log.new.items ≡ map entry_of log.old.items
        ++ click_entries conn (decision_of decision.now) (refusal_in answer.now) (option_map fields_of shown) }
{
    let decision = *decision;
    match answer {
        Err(why) => {
            log.push_reserved(Entry::Clicked {
                conn,
                decision,
                answer: Err(*why),
            });
        }
        Ok(_) => {
            log.push_reserved(Entry::Clicked {
                conn,
                decision,
                answer: Ok(()),
            });
            if let Some(board) = shown {
                log.push_reserved(Entry::Sent {
                    conn,
                    board,
                    decision,
                });
            }
        }
    }
}

impl World {
    /// The user clicks on a decision; if the client sends it, the command goes on the wire.
    pub(super) fn click(&mut self, decision: &Decision) -> Result<(), AllocError>
        ensures ok { OnOk result (Goes self.old self.new (E.Click (decision_of decision.now))) }
        ensures err { OnErr result (self.new ≡ self.old) }
    {
        self.log.reserve(2)?;
        make_room(&mut self.links, self.current, 0, COMMAND)?;
        let shown = self.client.shown().copied();
        let answer = self.client.decide(decision);
        note_click(&mut self.log, self.current, decision, &answer, shown);
        hand_out(&mut self.links, self.current, &answer);
        Ok(())
    }

    /// The user gives a plain command; if the client sends it, it goes on the wire.
    pub(super) fn say(&mut self, plain: &Plain<'_>) -> Result<(), AllocError>
        ensures ok { OnOk result (Goes self.old self.new (E.Plain (plain_value plain.now))) }
        ensures err { OnErr result (self.new ≡ self.old) }
    {
        make_room(&mut self.links, self.current, 0, COMMAND)?;
        let answer = self.client.plain(plain);
        hand_out(&mut self.links, self.current, &answer);
        Ok(())
    }
}
