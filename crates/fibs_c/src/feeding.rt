//! What the server sends, given to the client.

ghost use Rattle.std.specs.Prelude.{◌≡◌, ◌≤◌, length, option_map};
ghost use Rattle.fibs_lines.specs.Lines.{kept_limit};
ghost use Rattle.fibs_session.specs.Calls.SessionOf.{ask_of, taken_of};
ghost use Rattle.fibs_session.specs.History.Machine.{wire_of};
ghost use Rattle.fibs_c.specs.Records.Wires.{Holds};
ghost use Rattle.fibs_position.specs.DecisionValue.{decision_of as value_of};
ghost use Rattle.fibs_c.specs.Records.Decisions.{IsMaybeDecision};
ghost use Rattle.fibs_c.specs.FeedDoor.{IsFed, Feeds, TellsLine, decision_of_ask};

use crate::records::ClientHandle;
use crate::records::decisions::{DecisionRecord, decision_record, of_kind};
use crate::records::kinds::LineKind;
use crate::records::status::{DONE, NO_HANDLE, SHORT};
use crate::records::text::{flag, put};
use crate::records::wire::{WireRecord, clear, put_commands};
use fibs_lines::LIMIT;
use fibs_position::Decision;
use fibs_session::{Client, Got, Outstanding, Taken};
use std::alloc::Global;

/// What was heard of a piece.
#[repr(C)]
#[derive(Clone, Copy)]
pub struct Heard {
    /// How many bytes of the piece were read: those up to and with a line end, or all.
    pub used: usize,
    /// How many bytes the line has.
    pub len: usize,
    /// What the line is.
    pub kind: LineKind,
    /// Whether a line ended.
    pub ended: u8,
    /// Whether the line had more bytes than are kept.
    pub cut: u8,
    /// The decision that waited, if the line confirms it; else of kind 0.
    pub confirmed: DecisionRecord,
    /// Whether a standing order rolls at the line.
    pub rolled: u8,
}

/// The decision that was confirmed, without its board.
#[inline(always)]
fn decision_of(confirmed: Option<Outstanding>) -> Option<Decision>
    ensures { option_map value_of result ≡ decision_of_ask (option_map ask_of confirmed) }
{
    match confirmed {
        None => None,
        Some(outstanding) => Some(outstanding.decision),
    }
}

/// A decision, or none, as C has it.
fn maybe_record(decision: &Option<Decision>) -> DecisionRecord
    ensures { IsMaybeDecision result (option_map value_of decision.now) }
{
    match decision {
        None => of_kind(0),
        Some(decision) => decision_record(decision),
    }
}

/// Gives what was heard if a line ended: copies the line, and hands out the commands that answer it.
///
/// Each part is moved into a place of its own, and of a confirmed decision no board: while a part is lent from the
/// answer, all of the answer is in memory, which costs more than reading the line.
#[inline(always)]
fn tell(used: usize, taken: Taken<'_>, text: &mut [u8], wire: &mut WireRecord) -> Heard
    requires { kept_limit ≤ length text.old }
    ensures used { result.used ≡ used }
    ensures sends { Holds wire.old wire.new (wire_of (taken_of taken.entry).send) }
    ensures tells { TellsLine (taken_of taken.entry) result text.old text.new }
{
    let Taken {
        line,
        reading,
        send,
        confirmed,
        rolled,
    } = taken;
    let decision = decision_of(confirmed);
    put_commands(wire, send.as_slice());
    Heard {
        used,
        len: put(text, &line.bytes[..LIMIT.min(line.bytes.len())]),
        kind: LineKind::of(&reading),
        ended: 1,
        cut: flag(line.cut),
        confirmed: maybe_record(&decision),
        rolled: flag(rolled),
    }
}

/// Hears a piece up to and with the next line end, and copies the line.
fn hear(client: &mut Client, piece: &[u8], text: &mut [u8], wire: &mut WireRecord) -> Heard
    requires { kept_limit ≤ length text.old }
    ensures { Feeds client.old client.new piece.now result text.old text.new wire.old wire.new }
{
    let heard = client.read(piece);
    let Got { used, taken } = client.got(heard);
    match taken {
        None => {
            clear(wire);
            Heard {
                used,
                len: 0,
                kind: LineKind::text(),
                ended: 0,
                cut: 0,
                confirmed: of_kind(0),
                rolled: 0,
            }
        }
        Some(taken) => tell(used, taken, text, wire),
    }
}

/// Hears a piece up to and with the next line end; copies the line that ends there, if one does, into `text`, which has
/// room for `fibs_max_line()` bytes, and hands out the commands that answer it. To be called again with what is left,
/// until nothing is.
#[unsafe(no_mangle)]
pub extern "C" fn fibs_client_feed(
    alloc: Global,
    client: &mut ClientHandle,
    piece: &[u8],
    text: &mut [u8],
    heard: &mut Heard,
    wire: &mut WireRecord,
) -> u32
    ensures { IsFed client.old.value client.new.value piece.now heard.old heard.new text.old text.new wire.old wire.new
        result }
{
    clear(wire);
    if text.len() < LIMIT {
        return SHORT;
    }
    with!(ClientHandle, client, alloc, |held| {
        *heard = hear(&mut held, piece, text, wire);
        DONE
    })
}
