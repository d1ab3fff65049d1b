//! Laws of the commands.

ghost use Rattle.fibs_commands.specs.CommandLaws.{CommandsTellDecisions, CommandsAreShort, CommandsArePrinted, PlainInBothDirections, ReadCommandIsExact, ReadPlainIsExact, PlainReadsBack, DecisionsAreSent, PlainIsSent, LoginsAreSent, FirstAreSent, PlainIsOther, LoginIsOther, StyleIsOther, InitialAreOther};
ghost use Rattle.fibs_commands.specs.PlainOf.{plain_value};
ghost use Rattle.fibs_commands.specs.TextOf.{text_of};
ghost use Rattle.std.specs.Prelude.{◌≡◌, ◌↔◌, IsTrue};
ghost use Rattle.fibs_commands.specs.LoginOf.{name_of, password_of};
ghost use Rattle.fibs_commands.specs.Logins.{IsLogin};
ghost use Rattle.fibs_commands.specs.declared.login.Login.{Login};

use crate::{CommandText, Plain, PlainFault};
use fibs_fields::laws::decimals_are_exact;
use fibs_lines::laws::{empty_stream_has_no_line, sendable_text_is_its_line};

/// In each direction, different decisions have different commands.
pub fn commands_tell_decisions()
    ensures { CommandsTellDecisions }
{}

/// A decision's command has at most 36 bytes.
#[tactic(auto, using(crate::proofs::CommandLemmas::commands_are_short))]
pub fn commands_are_short()
    ensures { CommandsAreShort }
{}

/// A decision's command is not empty, and holds no line end, no telnet command and no other control byte.
#[tactic(auto, using(crate::proofs::CommandLemmas::commands_are_printed))]
pub fn commands_are_printed()
    ensures { CommandsArePrinted }
{}

/// A decision that moves no checker has one command in both directions.
#[tactic(auto, using(crate::proofs::CommandLemmas::plain_in_both_directions))]
pub fn plain_in_both_directions()
    ensures { PlainInBothDirections }
{}

/// Which decision a command is, said by the function, is what the relation says: a text is read as a decision exactly
/// if it is the command of that one.
pub fn read_command_is_exact()
    ensures { ReadCommandIsExact }
{
    decimals_are_exact();
}

/// Which plain command a text is, said by the function, is what the relation says.
#[tactic(auto, using(crate::proofs::ReadingPlain::read_plain_is_exact))]
pub fn read_plain_is_exact()
    ensures { ReadPlainIsExact }
{
    decimals_are_exact();
}

/// A plain command without a fault is read from its text.
#[tactic(auto, using(crate::proofs::ReadingPlain::plain_reads_back))]
pub fn plain_reads_back()
    ensures { PlainReadsBack }
{
    read_plain_is_exact();
}

/// The command of a decision is sent as the one line that it is.
pub fn decisions_are_sent()
    ensures { DecisionsAreSent }
{
    empty_stream_has_no_line();
    sendable_text_is_its_line();
    commands_are_printed();
    commands_are_short();
}

/// So is the text of a plain command.
pub fn plain_is_sent()
    ensures { PlainIsSent }
{
    empty_stream_has_no_line();
    sendable_text_is_its_line();
}

/// So is a login.
pub fn logins_are_sent()
    ensures { LoginsAreSent }
{
    empty_stream_has_no_line();
    sendable_text_is_its_line();
}

/// So are the commands that set up a connection.
pub fn first_are_sent()
    ensures { FirstAreSent }
{
    empty_stream_has_no_line();
    sendable_text_is_its_line();
}

/// No plain command is the command of a decision, whichever way the player goes.
pub fn plain_is_other()
    ensures { PlainIsOther }
{
    read_command_is_exact();
    plain_is_sent();
}

/// No login is.
pub fn login_is_other()
    ensures { LoginIsOther }
{
    read_command_is_exact();
    logins_are_sent();
}

/// The command that follows the welcome is not a decision's.
pub fn style_is_other()
    ensures { StyleIsOther }
{
    read_command_is_exact();
    first_are_sent();
}

/// The commands that follow the first settings are not a decision's.
pub fn initial_are_other()
    ensures { InitialAreOther }
{
    read_command_is_exact();
    first_are_sent();
}

/// Each login is one of a name and of a password.
pub fn logins_are_valid()
    ensures { (login : Login) → IsLogin (name_of login) (password_of login) }
{}

/// Texts are equal exactly if their bytes are.
pub fn texts_are_their_bytes(a: &CommandText, b: &CommandText) -> bool
    ensures { IsTrue result ↔ (text_of a.now ≡ text_of b.now) }
{
    *a == *b
}

/// Plain commands are equal exactly if they say the same.
pub fn plain_commands_are_what_they_say(a: &Plain<'_>, b: &Plain<'_>) -> bool
    ensures { IsTrue result ↔ (plain_value a.now ≡ plain_value b.now) }
{
    *a == *b
}

/// Faults are equal exactly if they are one.
pub fn plain_faults_are_told(a: PlainFault, b: PlainFault) -> bool
    ensures { IsTrue result ↔ (a ≡ b) }
{
    a == b
}
