//! What a call answers: 0, or why it did not do it.
//!
//! A status is the sum of a family's hundred and the number of the refusal or fault. The client's refusals are the
//! family 0, so that they have their own numbers.

ghost use Rattle.std.specs.Prelude.{◌≡◌, ◌+◌, ◌/◌, ◌%◌};
ghost use Rattle.fibs_commands.specs.PlainFaults.{plain_fault_number};
ghost use Rattle.fibs_messages.specs.Directory.Faults.{directory_fault_number};
ghost use Rattle.fibs_fields.specs.Faults.{fault_number};
ghost use Rattle.fibs_position.specs.Names.{disallowed_number, position_fault_number};
ghost use Rattle.fibs_session.specs.History.Refusals.{refusal_number};
ghost use Rattle.fibs_c.specs.Records.Statuses.{plain_refusal_status, status_name, name_in, refusal_named, plain_fault_named, position_fault_named, field_fault_named, directory_fault_named, own_named};

use fibs_commands::PlainFault;
use fibs_messages::Fault;
use fibs_messages::directory::DirectoryFault;
use fibs_position::{Disallowed, PositionFault};
use fibs_session::{PlainRefusal, Refusal};

/// It was done.
pub const DONE: u32 = 0;

/// No board on which the user plays was shown, as a client refuses a decision then.
pub const NO_BOARD: u32 = 5;

/// Reasons for which a board does not allow a decision have the numbers of the client's refusals: their own plus this.
const DISALLOWED: u32 = 6;

/// The faults of a plain command and of a login are this plus their number.
const PLAIN_FAULTS: u32 = 100;

/// The faults of a board that has no position are this plus their number.
const POSITION_FAULTS: u32 = 200;

/// The faults of a field are this plus their number.
const FIELD_FAULTS: u32 = 300;

/// The faults of a directory are this plus their number.
const DIRECTORY_FAULTS: u32 = 400;

/// Memory ran out, in whatever call.
pub const MEMORY: u32 = 401;

/// The handle holds nothing.
pub const NO_HANDLE: u32 = 501;

/// The handle holds something already.
pub const HELD: u32 = 502;

/// The room is too short.
pub const SHORT: u32 = 503;

/// The record is not a decision.
pub const NO_DECISION: u32 = 504;

/// The text is not a command.
pub const NO_COMMAND: u32 = 505;

/// There is no field of this number.
pub const NO_FIELD: u32 = 506;

/// No decision waits.
pub const NOTHING_WAITS: u32 = 507;

/// The directory has no such player.
pub const NO_PLAYER: u32 = 508;

/// There is no such status.
pub const NO_STATUS: u32 = 509;

/// The server does not carry the decision out on the board.
pub const NO_EFFECT: u32 = 510;

/// The number is not that of a direction.
pub const NO_DIRECTION: u32 = 511;

/// The client takes the line itself.
pub const TAKEN: u32 = 512;

/// Why a client refuses.
pub fn refusal_status(why: Refusal) -> u32
    ensures { result ≡ refusal_number why }
{
    u32::from(why.number())
}

/// What is wrong with a plain command or a login.
pub fn plain_fault_status(fault: PlainFault) -> u32
    ensures { result ≡ 100 + plain_fault_number fault }
{
    PLAIN_FAULTS + u32::from(fault.number())
}

/// Why a client refuses a plain command.
pub fn plain_refusal_status(why: PlainRefusal) -> u32
    ensures { result ≡ plain_refusal_status why }
{
    match why {
        PlainRefusal::Offline => refusal_status(Refusal::Offline),
        PlainRefusal::NotOn => refusal_status(Refusal::NotOn),
        PlainRefusal::Fault(fault) => plain_fault_status(fault),
    }
}

/// Why a decision is not allowed, as a client refuses it.
pub fn disallowed_status(why: Disallowed) -> u32
    ensures { result ≡ 6 + disallowed_number why }
{
    DISALLOWED + u32::from(why.number())
}

/// Why a board has no position.
pub fn position_fault_status(fault: PositionFault) -> u32
    ensures { result ≡ 200 + position_fault_number fault }
{
    POSITION_FAULTS + u32::from(fault.number())
}

/// What is wrong with a field.
pub fn field_fault_status(fault: Fault) -> u32
    ensures { result ≡ 300 + fault_number fault }
{
    FIELD_FAULTS + u32::from(fault.number())
}

/// Why a directory took no note.
pub fn directory_fault_status(fault: DirectoryFault) -> u32
    ensures { result ≡ 400 + directory_fault_number fault }
{
    DIRECTORY_FAULTS + u32::from(fault.number())
}

/// The name of the client's refusal of this number, or none.
fn refusal_named(number: u32) -> &'static str
    ensures { result.now ≡ refusal_named number }
{
    match number {
        0 => "Done",
        1 => "AlreadyOpen",
        2 => "Offline",
        3 => "NotReady",
        4 => "ServerPlays",
        5 => "NoBoard",
        6 => "Waiting",
        7 => "NotYours",
        8 => "WrongKind",
        9 => "IllegalPlay",
        10 => "NotOn",
        11 => "AlreadyOrdered",
        12 => "NotOrdered",
        _ => "",
    }
}

/// The name of the fault of a plain command or a login of this number, or none.
fn plain_fault_named(number: u32) -> &'static str
    ensures { result.now ≡ plain_fault_named number }
{
    match number {
        1 => "BadName",
        2 => "BadText",
        3 => "TooLong",
        _ => "",
    }
}

/// The name of the fault of a board without a position of this number, or none.
fn position_fault_named(number: u32) -> &'static str
    ensures { result.now ≡ position_fault_named number }
{
    match number {
        1 => "NotYou",
        2 => "TooManyOwn",
        3 => "TooManyOther",
        _ => "",
    }
}

/// The name of the fault of a field of this number, or none.
fn field_fault_named(number: u32) -> &'static str
    ensures { result.now ≡ field_fault_named number }
{
    match number {
        1 => "Missing",
        2 => "Extra",
        3 => "NotANumber",
        4 => "OutOfRange",
        5 => "BadName",
        _ => "",
    }
}

/// The name of the fault of a directory of this number, or none.
fn directory_fault_named(number: u32) -> &'static str
    ensures { result.now ≡ directory_fault_named number }
{
    match number {
        1 => "Memory",
        2 => "Full",
        _ => "",
    }
}

/// The name of what this library itself answers, or none.
fn own_named(number: u32) -> &'static str
    ensures { result.now ≡ own_named number }
{
    match number {
        1 => "NoHandle",
        2 => "Held",
        3 => "Short",
        4 => "NoDecision",
        5 => "NoCommand",
        6 => "NoField",
        7 => "NothingWaits",
        8 => "NoPlayer",
        9 => "NoStatus",
        10 => "NoEffect",
        11 => "NoDirection",
        12 => "Taken",
        _ => "",
    }
}

/// The name of a number in a family, or none.
fn name_in(family: u32, number: u32) -> &'static str
    ensures { result.now ≡ name_in family number }
{
    match family {
        0 => refusal_named(number),
        1 => plain_fault_named(number),
        2 => position_fault_named(number),
        3 => field_fault_named(number),
        4 => directory_fault_named(number),
        5 => own_named(number),
        _ => "",
    }
}

/// The name of a status, or none if there is no such status.
#[tactic(auto, unfolding(crate::specs::Records::Statuses::status_name))]
pub fn status_name(status: u32) -> &'static str
    ensures { result.now ≡ status_name status }
{
    name_in(status / 100, status % 100)
}
