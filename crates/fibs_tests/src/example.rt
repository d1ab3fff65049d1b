//! A caller of `Client`, as docs/CLIENT.md shows it: what is to be sent goes to `wire`, what the user sees to `screen`.

ghost use Rattle.std.specs.Prelude.{◌≡◌, ◌≤◌, ◌<◌, ◌++◌, length, take, OnOk, IfOk};
ghost use Rattle.fibs_session.specs.Calls.SessionOf.{texts_of, taken_of};
ghost use Rattle.fibs_session.specs.Calls.Writing.{Writes};
ghost use Rattle.fibs_session.specs.History.Machine.{Piece, on_wire, wire_of};

use fibs_messages::Reading;
use fibs_position::Decision;
use fibs_session::client::laws;
use fibs_session::{AnswerText, Client, Login, Taken};
use std::alloc::AllocError;
use std::test::Fail;

/// Sends a command: its text, and CR LF.
fn send(command: &str, wire: &mut Vec<u8>) -> Result<(), AllocError>
    ensures { OnOk result (wire.new.items ≡ wire.old.items ++ on_wire command.now) }
{
    wire.extend_from_slice(command.as_bytes())?;
    wire.extend_from_slice(b"\r\n")?;
    Ok(())
}

/// Sends commands.
fn send_all(commands: &[AnswerText], wire: &mut Vec<u8>) -> Result<(), AllocError>
    ensures { OnOk result (wire.new.items ≡ wire.old.items ++ wire_of (texts_of commands.now)) }
{
    for command in commands {
        send(command.as_str(), wire)?;
    }
    Ok(())
}

/// Prints what a line is, and whether it confirms a decision.
fn print(taken: &Taken<'_>, screen: &mut Vec<u8>) -> Result<(), AllocError> {
    match &taken.reading {
        Reading::Board(_) => screen.extend_from_slice(b"board\n")?,
        Reading::Numbered(_) => screen.extend_from_slice(b"message\n")?,
        Reading::Text(_) => screen.extend_from_slice(b"text\n")?,
        Reading::Malformed { .. } => screen.extend_from_slice(b"malformed\n")?,
    }
    if taken.confirmed.is_some() {
        screen.extend_from_slice(b"confirmed\n")?;
    }
    Ok(())
}

/// Answers a line: sends the commands.
fn answer(taken: &Taken<'_>, wire: &mut Vec<u8>) -> Result<(), AllocError>
    ensures { OnOk result (wire.new.items ≡ wire.old.items ++ wire_of (taken_of taken.now).send) }
{
    send_all(taken.send.as_slice(), wire)
}

/// Gives the client bytes up to and with a line end. Says how many they are.
fn take_line(
    client: &mut Client,
    bytes: &[u8],
    wire: &mut Vec<u8>,
    screen: &mut Vec<u8>,
) -> Result<usize, AllocError>
    ensures in_range { IfOk result (λ used. used ≤ length bytes.now) }
    ensures progress { IfOk result (λ used. 0 < length bytes.now → 0 < used) }
    ensures writes { IfOk result (λ used.
        Writes client.old client.new (Piece (take used bytes.now)) wire.old.items wire.new.items) }
{
    let heard = client.read(bytes);
    let got = client.got(heard);
    if let Some(taken) = &got.taken {
        answer(taken, wire)?;
        print(taken, screen)?;
    }
    Ok(got.used)
}

/// Gives the client a piece of what the server sends.
fn take(
    client: &mut Client,
    piece: &[u8],
    wire: &mut Vec<u8>,
    screen: &mut Vec<u8>,
) -> Result<(), AllocError>
    ensures { OnOk result (Writes client.old client.new (Piece piece.now) wire.old.items wire.new.items) }
{
    laws::pieces_join();
    laws::empty_piece_is_nothing();
    let mut rest = piece;
    while !rest.is_empty() {
        let used = take_line(client, rest, wire, screen)?;
        rest = &rest[used..];
    }
    Ok(())
}

/// What the server sends, in two pieces.
static PIECES: [&[u8]; 2] = [
    b"login: 1 ann 1041253132 localhost\r\n2 ann 1 1 0 0 0 0 1 1 10 0 1",
    b" 0 1 1500.00 0 0 0 0 0 UTC\r\n\
    board:You:bob:3:0:1:0:-2:0:0:0:0:5:0:3:0:0:0:-5:5:0:0:0:-3:0:-5:0:0:0:0:2:0:\
    1:0:0:0:0:1:1:1:0:1:-1:0:25:0:0:0:0:0:0:0:0\r\n",
];

/// Opens a connection.
fn open(client: &mut Client, wire: &mut Vec<u8>) -> Result<(), Fail> {
    let login = client.open().ok().ok_or("open")?;
    Ok(send(&login, wire)?)
}

/// The user rolls, and the connection is lost. Says which decision is lost with it.
fn roll_and_lose(client: &mut Client, wire: &mut Vec<u8>) -> Result<Decision, Fail> {
    let roll = client.decide(&Decision::Roll).ok().ok_or("roll")?;
    send(&roll, wire)?;
    let lost = client.lose().ok_or("the roll waited")?;
    Ok(lost.decision)
}

/// A connection on which these pieces come, and the next one. Says which decision is lost between them.
fn connect_twice(
    client: &mut Client,
    wire: &mut Vec<u8>,
    screen: &mut Vec<u8>,
) -> Result<Decision, Fail> {
    open(client, wire)?;
    for piece in &PIECES {
        take(client, piece, wire, screen)?;
    }
    let lost = roll_and_lose(client, wire)?;
    open(client, wire)?;
    Ok(lost)
}

/// What is sent on both.
const SENT: &[u8] = b"login fibs_client 1008 ann secret\r\nset boardstyle 3\r\nboard\r\nroll\r\n\
    login fibs_client 1008 ann secret\r\n";

#[test]
fn a_caller_opens_reads_clicks_loses_and_opens_again(rt: HostRuntime) -> Result<(), Fail> {
    let mut wire = Vec::new(rt.alloc());
    let mut screen = Vec::new(rt.alloc());
    let login = Login::new(b"ann", b"secret").ok().ok_or("login")?;
    let mut client = Client::new(login);
    let lost = connect_twice(&mut client, &mut wire, &mut screen)?;
    let is_told = [
        lost == Decision::Roll,
        wire.as_slice() == SENT,
        screen.as_slice() == b"message\nmessage\nboard\n".as_slice(),
    ];
    assert!(rt; is_told == [true; 3], "it is the user's to roll again");
    Ok(())
}
