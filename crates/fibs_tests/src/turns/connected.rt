//! A client at its connection, for the tests of turns.
ghost use Rattle.std.specs.Prelude.{◌≡◌, true};
ghost use Rattle.fibs_connect.specs.Turns.Turn.{FitsStream};

use fibs_connect::turns::{Ending, ExchangeFault, exchange};
use fibs_engine::link::Link;
use fibs_session::{Client, Directory, Login};
use fibs_test_tools::pipe::{After, Pipe, QUIET};
use fibs_test_tools::text::{TEXT_ROOM, Text, joined};
use std::io::Write;
use std::process::Abort;

/// A client that has opened a connection.
pub fn opened(rt: &impl Abort) -> Client
    ensures { FitsStream result true }
{
    let login = Login::new(b"ann", b"secret").expect(rt, "it is a login");
    let mut client = Client::new(login);
    let _command = client.open();
    client
}

/// How a turn ended, in a word.
#[derive(Clone, Copy, PartialEq, Eq)]
pub enum Kind {
    /// Nothing more has come yet.
    Quiet,
    /// The connection is over.
    Lost,
    /// The connection is over, and a decision was not confirmed on it.
    LostWaiting,
    /// What is printed could not be written.
    Unprinted,
}

/// Whether the bytes are these parts, one after another.
pub fn is_made_of(bytes: &[u8], parts: &[&[u8]]) -> bool {
    let mut rest = bytes;
    for part in parts {
        match rest.strip_prefix(part) {
            Some(after) => rest = after,
            None => return false,
        }
    }
    rest.is_empty()
}

/// A turn after which the connection goes on. What the server sends is in parts.
#[derive(Clone, Copy)]
pub enum TalkCue<'a> {
    /// The server sends this.
    Hears(&'a [&'a [u8]]),
    /// A line is typed, and then the server sends this.
    Types(&'a [u8], &'a [&'a [u8]]),
}

/// A turn: what is typed, what the server sends, in parts, what follows that, how many bytes the stream takes, and how
/// the turn ends.
#[derive(Clone, Copy)]
pub struct ScriptedTurn<'a> {
    pub typed: Option<&'a [u8]>,
    pub heard: &'a [&'a [u8]],
    pub after: After,
    pub room: usize,
    pub kind: Kind,
}

/// A client on one connection, the players that it knows, and what it has sent and printed. A stream gives it at most
/// `most` bytes at once.
#[derive(Drop)]
pub struct TestSeat {
    pub client: Client,
    pub directory: Directory,
    pub sent: Text,
    pub printed: Text,
    most: usize,
}

impl TestSeat {
    /// A client that has opened a connection.
    pub fn open(rt: &(impl Abort + AllocGlobal), most: usize) -> TestSeat
        ensures { FitsStream result.client true }
    {
        TestSeat {
            client: opened(rt),
            directory: Directory::new(rt.alloc()),
            sent: Text::new(),
            printed: Text::new(),
            most,
        }
    }

    /// One turn with a stream and a writer. It notes nothing of what is sent and printed.
    pub fn turn_on<S: Link, W: Write>(
        &mut self,
        stream: &mut S,
        typed: Option<&[u8]>,
        out: &mut W,
    ) -> Kind
        requires { FitsStream self.old.client true }
        ensures { result ≡ Kind.Quiet → FitsStream self.new.client true }
    {
        let (client, directory) = (&mut self.client, &mut self.directory);
        match exchange(client, directory, Some(stream), typed, out) {
            Ok(Ending::Quiet) => Kind::Quiet,
            Ok(Ending::Lost(None)) => Kind::Lost,
            Ok(Ending::Lost(Some(_))) => Kind::LostWaiting,
            Err(ExchangeFault::Output) => Kind::Unprinted,
        }
    }

    /// One turn with a stream in memory, which ends so. It notes what is printed.
    pub fn turn_with(
        &mut self,
        rt: &impl Abort,
        pipe: &mut Pipe<'_>,
        typed: Option<&[u8]>,
        kind: Kind,
    )
        requires { FitsStream self.old.client true }
        ensures { kind ≡ Kind.Quiet → FitsStream self.new.client true }
    {
        let mut out = Pipe::new(b"", 1, After::End, TEXT_ROOM);
        let ended = self.turn_on(pipe, typed, &mut out);
        let _fits = self.printed.try_extend_from_slice(out.output());
        assert!(rt; ended == kind, "the turn ends otherwise");
    }

    /// Takes a turn. It notes what is sent and printed.
    fn take_turn(&mut self, rt: &impl Abort, turn: &ScriptedTurn<'_>)
        requires { FitsStream self.old.client true }
        ensures { turn.now.kind ≡ Kind.Quiet → FitsStream self.new.client true }
    {
        let input = joined(turn.heard);
        let mut pipe = Pipe::new(&input, self.most, turn.after, turn.room);
        self.turn_with(rt, &mut pipe, turn.typed, turn.kind);
        let _fits = self.sent.try_extend_from_slice(pipe.output());
    }

    /// Takes a step. A read that comes after what the server sends fails so.
    pub fn take(&mut self, rt: &impl Abort, step: TalkCue<'_>, after: After)
        requires { FitsStream self.old.client true }
        ensures { FitsStream self.new.client true }
    {
        let (typed, heard) = match step {
            TalkCue::Hears(parts) => (None, parts),
            TalkCue::Types(typed, parts) => (Some(typed), parts),
        };
        let turn = ScriptedTurn {
            typed,
            heard,
            after,
            room: 4096,
            kind: Kind::Quiet,
        };
        self.take_turn(rt, &turn);
    }
}
