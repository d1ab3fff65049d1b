//! A client run over a list of inputs.

ghost use Rattle.std.specs.Prelude.{◌≡◌, ◌≤◌, ◌<◌, ◌++◌, length, take, map, OnOk, IfOk};
ghost use Rattle.fibs_session.specs.Calls.InputOf.{input_of};
ghost use Rattle.fibs_session.specs.Calls.SessionOf.{texts_of, taken_of, handed};
ghost use Rattle.fibs_session.specs.Calls.Writing.{Writes};
ghost use Rattle.fibs_session.specs.History.Machine.{Piece, Out, on_wire, wire_of};
ghost use Rattle.fibs_commands.specs.LoginOf.{login_of};
ghost use Rattle.fibs_commands.specs.TextOf.{text_of};

use super::input::Input;
use super::{Client, laws};
use crate::histories::{PlainRefusal, Refusal};
use crate::taken::Taken;
use arrayvec::ArrayString;
use fibs_commands::{AnswerText, CommandText, Login};
use std::alloc::{AllocError, Global};

/// Appends a command with its line end.
fn append<const N: usize>(command: &ArrayString<N>, out: &mut Vec<u8>) -> Result<(), AllocError>
    ensures { OnOk result (out.new.items ≡ out.old.items ++ on_wire (text_of command.now)) }
{
    out.extend_from_slice(command.as_bytes())?;
    out.extend_from_slice(b"\r\n")?;
    Ok(())
}

/// Appends commands.
fn append_all(commands: &[AnswerText], out: &mut Vec<u8>) -> Result<(), AllocError>
    ensures { OnOk result (out.new.items ≡ out.old.items ++ wire_of (texts_of commands.now)) }
{
    for command in commands {
        append(command, out)?;
    }
    Ok(())
}

/// Appends the commands that answer a line.
fn append_taken(taken: &Taken<'_>, out: &mut Vec<u8>) -> Result<(), AllocError>
    ensures { OnOk result (out.new.items ≡ out.old.items ++ wire_of (taken_of taken.now).send) }
{
    append_all(taken.send.as_slice(), out)
}

/// Appends what a click or an opening handed out.
fn append_answer(answer: &Result<CommandText, Refusal>, out: &mut Vec<u8>) -> Result<(), AllocError>
    ensures { OnOk result (out.new.items ≡ out.old.items ++ wire_of (handed answer.now)) }
{
    match answer {
        Ok(command) => append(command, out),
        Err(_why) => Ok(()),
    }
}

/// Appends what a plain command handed out.
fn append_plain(
    answer: &Result<CommandText, PlainRefusal>,
    out: &mut Vec<u8>,
) -> Result<(), AllocError>
    ensures { OnOk result (out.new.items ≡ out.old.items ++ wire_of (handed answer.now)) }
{
    match answer {
        Ok(command) => append(command, out),
        Err(_why) => Ok(()),
    }
}

/// Reads a front of the piece, and appends the commands of the line that ends with it. Says how long the front is.
fn hear(client: &mut Client, piece: &[u8], out: &mut Vec<u8>) -> Result<usize, AllocError>
    ensures in_range { IfOk result (λ used. used ≤ length piece.now) }
    ensures progress { IfOk result (λ used. 0 < length piece.now → 0 < used) }
    ensures writes { IfOk result (λ used.
        Writes client.old client.new (Piece (take used piece.now)) out.old.items out.new.items) }
{
    let heard = client.read(piece);
    let got = client.got(heard);
    if let Some(taken) = &got.taken {
        append_taken(taken, out)?;
    }
    Ok(got.used)
}

/// Reads the whole piece.
fn hear_all(client: &mut Client, piece: &[u8], out: &mut Vec<u8>) -> Result<(), AllocError>
    ensures { OnOk result (Writes client.old client.new (Piece piece.now) out.old.items out.new.items) }
{
    laws::pieces_join();
    laws::empty_piece_is_nothing();
    let mut rest = piece;
    while !rest.is_empty() {
        let used = hear(client, rest, out)?;
        rest = &rest[used..];
    }
    Ok(())
}

/// Takes one input.
fn take_input(client: &mut Client, input: &Input<'_>, out: &mut Vec<u8>) -> Result<(), AllocError>
    ensures { OnOk result (Writes client.old client.new (input_of input.now) out.old.items out.new.items) }
{
    match input {
        Input::Open => {
            let answer = client.open();
            append_answer(&answer, out)
        }
        Input::Lose => {
            let _waiting = client.lose();
            Ok(())
        }
        Input::Piece(piece) => hear_all(client, piece, out),
        Input::Click(decision) => {
            let answer = client.decide(decision);
            append_answer(&answer, out)
        }
        Input::Plain(plain) => {
            let answer = client.plain(plain);
            append_plain(&answer, out)
        }
        Input::Order => {
            let _refused = client.order_roll();
            Ok(())
        }
        Input::Withdraw => {
            let _refused = client.withdraw_roll();
            Ok(())
        }
    }
}

/// All bytes that a new client hands out over the inputs, in order: each command with CR LF. An input that the client
/// refuses hands out nothing. Pieces may be cut anywhere.
pub fn run_client(alloc: Global, login: Login, inputs: &[Input<'_>]) -> Result<Vec<u8>, AllocError>
    ensures { IfOk result (λ bytes. bytes.items ≡ Out (login_of login) (map input_of inputs.now)) }
{
    let mut out = Vec::new(alloc);
    let mut client = Client::new(login);
    for input in inputs {
        take_input(&mut client, input, &mut out)?;
    }
    Ok(out)
}
