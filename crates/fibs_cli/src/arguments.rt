//! The command line.
ghost use Rattle.std.specs.Prelude.{◌≡◌, ◌≢◌};

use clap::builder::ValueParser;
use clap::error::ErrorKind;
use clap::{Arg, ArgAction, ArgMatches, Command, Error};
use std::alloc::{AllocError, Global};

const ABOUT: &str = "A client for FIBS, the First Internet Backgammon Server";

const EXAMPLES: &str = "\
Examples:
  fibs show session.log          print what each line of a saved session says
  nc fibs.com 4321 | fibs show   the same of a connection, as its lines come
  fibs show --json session.log   print a JSON object for each line
  fibs plays board:You:...       list the plays of a board
  fibs replay < double-click.txt run a script of clicks, cuts and losses
  fibs connect HOST PORT NAME    log in, and play
  fibs loop < double-click.txt   play the same over sockets of this machine

Exit status: 0 done, 2 wrong arguments, 3 refused input,
4 input, output or a socket of `loop` failed, 5 out of memory";

/// What `--version` says after the program's name. CHANGELOG.md has the same number.
const VERSION: &str = "0.4.0 (proved with rattle-kit-13)";

const SHOW: &str = "Print what each line of the server says";

const SHOW_LONG: &str = "\
Print what each line of the server says.

Reads the server's bytes from each FILE, one after another, or from standard
input if none is named, and prints one of these for each line:

  board:...               a board of style 3 whose 53 fields are right
  message N ...           a numbered message of CLIP, its fields right
  text TEXT               any other line
  cut TEXT                the first 16,384 bytes of a line that has more
  malformed N FIELD WHY   a board (N is 0) or message N whose field FIELD is
                          the first that is wrong: WHY is Missing, Extra,
                          NotANumber, OutOfRange or BadName

If bytes follow the last line end, it prints at the end

  unfinished COUNT        how many bytes they are, up to 16,384

Telnet commands, and the prompts `login: ` and `> ` at a line's start, are left
out. In TEXT and in a message each backslash and each byte that is not
printable ASCII is printed as `\\x` and two hexadecimal digits.

If standard output is a terminal, a board is drawn, and the other lines are put
in words.

With --json one JSON object is printed for each line, also at a terminal:

  {\"kind\":KIND,\"line\":LINE,...,\"line_number\":NUMBER,\"offset\":COUNT}

KIND is board, message, text, cut or malformed, LINE the line itself, and the
other members say what it means by name, and last its number, from 1, and how
many bytes of the input come before it. Each byte that is not printable ASCII
is the character of its number in LINE. The last object may be

  {\"kind\":\"unfinished\",\"line\":BYTES,\"bytes\":COUNT,...}

With --events these objects are printed too, and after the object of a line one
for each thing that has happened by it, as boards and texts say:

  {\"kind\":\"event\",\"event\":EVENT,\"line_number\":NUMBER,...}

EVENT is logged_in, joined, rolled, played, doubled, accepted, game_over and so
on; docs/FORMATS.md lists them. Nothing is told twice for a board or a text that
comes again. The last object is a summary:

  {\"kind\":\"summary\",\"lines\":COUNT,...}";

const PLAYS: &str = "List the plays of a board";

const PLAYS_LONG: &str = "\
List the plays of a board.

LINE is a board line of style 3, or the JSON object of one as
`fibs show --json` prints it. Prints

  phase PHASE             what may happen next: Over, AnswerDouble,
                          OpponentActs, RollOrDouble, Move or Passing

and in the phase Move one play for each arrangement of the checkers that can be
reached:

  move FROM-TO ..         the command that leads there, in the place numbers of
                          LINE; if there are several, the greatest

If standard output is a terminal, the board is drawn above them.

For any other LINE it prints nothing, says why on standard error, and ends with
status 3:

  not a board             LINE does not begin with `board:`
  malformed 0 FIELD WHY   a field is wrong, as for `fibs show`
  position WHY            the board has no position of the user: WHY is NotYou
                          (field 2 is not `You`), TooManyOwn or TooManyOther
                          (more than 15 checkers)

With --json it prints the JSON object of LINE on standard output, as
`fibs show --json` does, also at a terminal. That of a board with a position
has one member more:

  \"plays\":[{\"command\":COMMAND,\"steps\":[[FROM,TO],...]},...]

FROM and TO are places in the player's own numbers: 25 is the bar, 0 is off.
For any other LINE the status is 3.";

const REPLAY: &str = "Run a script of events, and print what happened";

const REPLAY_LONG: &str = "\
Run a script of events between a client and a model of the server, and print
what happened.

Reads the script from standard input, at most 1048576 bytes. Its first line is
the server's first board. Each other line is one event:

  open                    the client connects; it logs in as ann, with the
                          password secret
  click COMMAND           the player decides, as in `click roll` and
                          `click move 24-18`
  plain COMMAND           the player sends another command, as in
                          `plain say hello`
  order roll              from now on the client rolls by itself if the player
                          may not double
  withdraw roll           it no longer does
  deliver N               the next N bytes reach the client, or all if fewer
                          are on their way
  lose K                  the connection breaks; of what is on its way to the
                          server the first K bytes arrive
  serve C D1 D2           the server takes the next line of connection C, and
                          rolls D1 and D2
  own BOARD               the server's board becomes this one, and is sent
  repeat                  the server sends its board again
  text LINE               the server sends a line

For example, a player who clicks twice before the answer comes:

  $ fibs replay < examples/double-click.txt
  opened 1
  loggedin 1
  welcomed 1
  informed 1 0 0
  shown 1 board:...
  shown 1 board:...
  clicked 1 ok
  sent 1 board:... roll
  clicked 1 Waiting
  took 1 board:... roll
  shown 1 board:...
  end 12

It prints what the client and the server noted, one line each: opened C,
loggedin C, welcomed C, informed C AUTOMOVE GREEDY, shown C BOARD, clicked C ok
or clicked C WHY, ordered C, withdrawn C, sent C BOARD COMMAND,
took C BOARD COMMAND, undone C BOARD COMMAND, and lost C, or
lost C BOARD COMMAND with what was not confirmed. C is the connection. The last
line is one of

  end DONE                each event was done, and DONE is how many
  refused DONE N WHY      the event after the first DONE was refused; status 3
  script LINE             nothing was run: the line of this number is
                          unreadable, or, if it is 0, the script is too long;
                          status 3

With --json it prints a JSON object for each of these lines:

  {\"kind\":WORD,\"line\":LINE,...}

WORD is the word with which LINE begins; the other members say what it means by
name. A board is the object that `fibs show --json` prints for it.";

const CONNECT: &str = "Log in at a server, and play";

const CONNECT_LONG: &str = "\
Log in at a server, and play.

HOST is a name or an address, PORT 1 to 65535. The first line of standard input
is the password. It is never printed, but a terminal shows what is typed. This
command asks for the password without showing it, and then becomes
`fibs connect`:

  fibs-play fibs.com 4321 ann

With `--password-file FILE` the password is the first line of FILE, which may
be /dev/fd/3 or a named pipe, and each line of standard input is a typed line.
If FILE can't be read, the status is 4.

With `--log FILE` each line of the server is appended at once to FILE, and
after `>> ` each line that is sent, but the login, which has the password.
`fibs show` reads such a file. If FILE can't be opened, the status is 4.

Then each line that is typed is one of

  roll                    roll the dice
  move 8-5 6-5            play, in the place numbers of the board line;
                          `move bar-20` enters, `move 3-off` bears off
  double, accept, reject  offer the cube; take it; give the game up
  resign n                offer to lose a single game; `resign g` a gammon,
                          `resign b` a backgammon
  order roll              roll at each new board on which you are to roll and
                          may not double, until `withdraw roll` or the end of
                          the connection
  board                   ask for the board again
  who                     ask for the list of players
  say good luck           talk to the opponent
  kibitz good luck        talk to all who play and watch at your board;
                          `whisper good luck` to those who watch
  tell bob hello          talk to a player; `message bob hello` leaves it for
                          later, `shout hello` is for all
  invite bob 5            invite to a match of 5 points; `invite bob` to resume
                          one
  join bob                join the match to which bob has invited you; `join`
                          too
  toggle ready            say whether you are ready to play
  toggle automove         turn off what the server plays by itself; so does
                          `toggle greedy`. The client learns of it at the next
                          login: type `bye`, and then `open`
  bye                     leave the server
  an empty line           print what the server has sent meanwhile
  players                 list the players that the server has listed
  open                    connect again; the server is heard after the next
                          line
  quit                    end; so does the end of the input

The answer is one of

  sent COMMAND            the command went to the server; after a board
                          `sent roll` says that the standing order rolled
  ordered, withdrawn      the order to roll is given, or withdrawn
  refused NUMBER WHY      it can't be sent now, or is against the rules:
                          nothing was sent
  fault NUMBER WHY        a name or a text is not valid: nothing was sent
  unknown                 it is not a command, or has more than 4096 bytes
  player NAME RATING      for `players`, one line for each
  no connection           the server can't be reached

After each line, but not after `open`, `players` and a line that is too long,
the client reads from the server until it is quiet for half a second. If
standard input is a terminal, that is a fiftieth of a second, and it also reads
from the server while nothing is typed. What the server sends is printed as by
`fibs show`. After a board that has a position comes `phase PHASE`, and then
`confirmed COMMAND` if the game has changed since the board on which COMMAND
was decided.

`lost`, or `lost COMMAND` if COMMAND was not confirmed, means that the
connection is over. The client sends nothing again by itself: `open` connects
again, and the server then shows the game as it has it.

If standard output is a terminal, a board is drawn, and the other lines are put
in words.

With --json it prints a JSON object for each line, also at a terminal: for a
line of the server the object that `fibs show --json` prints for it, and for
any other line

  {\"kind\":WORD,\"line\":LINE,...}

WORD is the word with which LINE begins, or no_connection.

If the password or NAME is not valid, the status is 3, and standard error has
`fault NUMBER WHY`.";

/// What `--password-file` says.
const PASSWORD_FILE: &str = "A file whose first line is the password";

/// What `--log` says.
const LOG: &str = "A file to which the conversation is appended";

/// What `--json` says.
const JSON: &str = "Print a JSON object for each line";

/// What `--events` says.
const EVENTS: &str = "Print these objects, and one for each event";

/// What `FILE` says.
const FILES: &str = "A saved session, in place of standard input";

/// What `HOST`, `PORT`, `NAME` and `LINE` say.
const HOST: &str = "The server's name or address";

const PORT: &str = "The server's port, 1 to 65535";

const NAME: &str = "The name under which you log in";

const LINE: &str = "A board line of style 3, `board:...`, or its JSON object";

const LOOP: &str = "Play a script over sockets of this machine";

const LOOP_LONG: &str = "\
Play a script over sockets of this machine.

Reads a script from standard input, and prints what `fibs replay` prints, with
the same status; `fibs help replay` lists the lines of both. A client and a
model server play it in one process, over a TCP connection of 127.0.0.1 for
each `open`. What one of them sends waits there until `deliver`, `serve` or
`lose` moves it across, in portions of at most 1024 bytes.

If a socket fails, the status is 4, after the log so far.";

/// A conversation with a server.
#[derive(Clone, Copy)]
pub struct Call<'a> {
    /// The server's name or address.
    pub host: &'a str,
    /// Its port.
    pub port: u16,
    /// The name that logs in.
    pub name: &'a str,
    /// The file whose first line is the password. Without one it is typed.
    pub password_file: Option<&'a str>,
    /// The file to which each line is added as it comes.
    pub log: Option<&'a str>,
    /// Whether a JSON object is printed for each line.
    pub json: bool,
}

/// An engine that needs no server.
#[derive(Clone, Copy)]
pub enum Request<'a> {
    /// To show the standard input.
    Show,
    /// To show the standard input as JSON.
    ShowJson,
    /// The same, with what has happened.
    ShowEvents,
    /// To list the plays of a board line, or of its object.
    Plays(&'a str),
    /// To list them as JSON.
    PlaysJson(&'a str),
    /// To run the script on the standard input.
    Replay,
    /// To run it, and to print its account as JSON.
    ReplayJson,
    /// To play a script over sockets of this machine.
    Loop,
}

/// What a command line is answered by that needs no server.
#[derive(Drop)]
pub enum Answer<'a> {
    /// An engine runs.
    Engine(Request<'a>),
    /// Help, or the version, that was asked for.
    Help(String),
    /// What is wrong with the line.
    Refused(String),
    /// Memory ran out.
    Memory,
}

/// What a command line asks for.
#[derive(Drop)]
pub enum Asked<'a> {
    /// To talk with a server.
    Connect(Call<'a>),
    /// An engine that reads these files, one after another, in place of the standard input.
    Files(Request<'a>, Vec<&'a str>),
    /// All else.
    Answer(Answer<'a>),
}

/// Reads the words of the command line. The first is the program's own name.
pub fn read<'a>(alloc: Global, words: &'a [String]) -> Asked<'a> {
    match matches_of(alloc, words) {
        Ok(matches) => match asked_of(alloc, &matches) {
            Ok(Some(asked)) => asked,
            // The command line needs a subcommand and a line, so None does not come.
            Ok(None) | Err(_) => Asked::Answer(Answer::Memory),
        },
        Err(error) => Asked::Answer(answer_to(alloc, &error)),
    }
}

/// What is answered to words that ask for no engine.
fn answer_to<'a>(alloc: Global, error: &Error) -> Answer<'a> {
    match error.to_string(alloc) {
        Ok(text) => answer_of(error.kind(), text),
        Err(_) => Answer::Memory,
    }
}

/// The answer of this kind and text. Help, and the version, come only if they were asked for, and a refusal at
/// every other mistake.
fn answer_of<'a>(kind: ErrorKind, text: String) -> Answer<'a>
    ensures memory { kind ≡ ErrorKind.OutOfMemory → result ≡ Answer.Memory }
    ensures help { kind ≡ ErrorKind.DisplayHelp → result ≡ Answer.Help text }
    ensures version { kind ≡ ErrorKind.DisplayVersion → result ≡ Answer.Help text }
    ensures refused { kind ≢ ErrorKind.OutOfMemory → kind ≢ ErrorKind.DisplayHelp → kind ≢ ErrorKind.DisplayVersion →
        result ≡ Answer.Refused text }
{
    match kind {
        ErrorKind::OutOfMemory => Answer::Memory,
        ErrorKind::DisplayHelp | ErrorKind::DisplayVersion => Answer::Help(text),
        _ => Answer::Refused(text),
    }
}

fn matches_of<'a>(alloc: Global, words: &'a [String]) -> Result<ArgMatches<'a>, Error> {
    command(alloc)?.try_get_matches_from(words)
}

/// What an argument of a subcommand is.
#[derive(Clone, Copy)]
enum Kind {
    /// A word that can't be left out.
    Word,
    /// A port that can't be left out.
    Port,
    /// An option that names a file.
    File,
    /// Any number of files.
    Files,
    /// An option without a value.
    Flag,
}

/// An argument of a subcommand.
#[derive(Clone, Copy)]
struct Argument {
    name: &'static str,
    help: &'static str,
    kind: Kind,
}

/// The argument `--json`.
const JSON_ARGUMENT: Argument = Argument {
    name: "json",
    help: JSON,
    kind: Kind::Flag,
};

/// The arguments of `replay`.
const JSON_ARGUMENTS: [Argument; 1] = [JSON_ARGUMENT];

/// The arguments of `show`.
const SHOW_ARGUMENTS: [Argument; 3] = [
    Argument {
        name: "FILE",
        help: FILES,
        kind: Kind::Files,
    },
    JSON_ARGUMENT,
    Argument {
        name: "events",
        help: EVENTS,
        kind: Kind::Flag,
    },
];

/// The arguments of `plays`.
const PLAYS_ARGUMENTS: [Argument; 2] = [
    Argument {
        name: "LINE",
        help: LINE,
        kind: Kind::Word,
    },
    JSON_ARGUMENT,
];

/// The arguments of `connect`.
const CONNECT_ARGUMENTS: [Argument; 6] = [
    Argument {
        name: "HOST",
        help: HOST,
        kind: Kind::Word,
    },
    Argument {
        name: "PORT",
        help: PORT,
        kind: Kind::Port,
    },
    Argument {
        name: "NAME",
        help: NAME,
        kind: Kind::Word,
    },
    Argument {
        name: "password-file",
        help: PASSWORD_FILE,
        kind: Kind::File,
    },
    Argument {
        name: "log",
        help: LOG,
        kind: Kind::File,
    },
    JSON_ARGUMENT,
];

/// A subcommand.
#[derive(Clone, Copy)]
struct Subcommand {
    name: &'static str,
    about: &'static str,
    long_about: &'static str,
    arguments: &'static [Argument],
}

/// The subcommands, in the order of the help.
const SUBCOMMANDS: &[Subcommand] = &[
    Subcommand {
        name: "show",
        about: SHOW,
        long_about: SHOW_LONG,
        arguments: &SHOW_ARGUMENTS,
    },
    Subcommand {
        name: "plays",
        about: PLAYS,
        long_about: PLAYS_LONG,
        arguments: &PLAYS_ARGUMENTS,
    },
    Subcommand {
        name: "replay",
        about: REPLAY,
        long_about: REPLAY_LONG,
        arguments: &JSON_ARGUMENTS,
    },
    Subcommand {
        name: "connect",
        about: CONNECT,
        long_about: CONNECT_LONG,
        arguments: &CONNECT_ARGUMENTS,
    },
    Subcommand {
        name: "loop",
        about: LOOP,
        long_about: LOOP_LONG,
        arguments: &[],
    },
];

/// The command line that is understood.
fn command<'a>(alloc: Global) -> Result<Command<'a>, AllocError> {
    with_subcommands(alloc, program(alloc)?, subcommands())
}

/// The subcommands, in the order of the help.
fn subcommands() -> &'static [Subcommand] {
    SUBCOMMANDS
}

/// `fibs` without its subcommands.
fn program<'a>(alloc: Global) -> Result<Command<'a>, AllocError> {
    Command::new(alloc, "fibs")
        .about(ABOUT)
        .version(VERSION)
        .after_help(EXAMPLES)
        .subcommand_required(true)
        .bin_name("fibs")
}

/// The same with these subcommands.
fn with_subcommands<'a>(
    alloc: Global,
    mut command: Command<'a>,
    subcommands: &[Subcommand],
) -> Result<Command<'a>, AllocError> {
    for subcommand in subcommands {
        command = with_subcommand(alloc, command, subcommand)?;
    }
    Ok(command)
}

/// The same with one more subcommand.
fn with_subcommand<'a>(
    alloc: Global,
    command: Command<'a>,
    subcommand: &Subcommand,
) -> Result<Command<'a>, AllocError> {
    command.subcommand(built(alloc, subcommand)?)
}

/// A subcommand with its arguments.
fn built<'a>(alloc: Global, subcommand: &Subcommand) -> Result<Command<'a>, AllocError> {
    let mut command = Command::new(alloc, subcommand.name)
        .about(subcommand.about)
        .long_about(subcommand.long_about);
    for argument in subcommand.arguments {
        command = command.arg(argument_of(alloc, argument))?;
    }
    Ok(command)
}

/// What is read of an argument.
fn argument_of<'a>(alloc: Global, argument: &Argument) -> Arg<'a> {
    let arg = Arg::new(alloc, argument.name).help(argument.help);
    match argument.kind {
        Kind::Word => arg.required(true),
        Kind::Port => arg
            .value_parser(ValueParser::unsigned(1, 65535))
            .required(true),
        Kind::File => arg.long(argument.name).value_name("FILE"),
        Kind::Files => arg.num_args(0..),
        Kind::Flag => arg.long(argument.name).action(ArgAction::SetTrue),
    }
}

/// An engine that needs no server is asked for.
fn engine(request: Request<'_>) -> Option<Asked<'_>> {
    Some(Asked::Answer(Answer::Engine(request)))
}

/// How a session is to be shown.
fn request_to_show<'a>(matches: &ArgMatches<'a>) -> Request<'a> {
    if matches.get_flag("events") {
        Request::ShowEvents
    } else if matches.get_flag("json") {
        Request::ShowJson
    } else {
        Request::Show
    }
}

/// A session is to be shown: of the standard input if no file is named.
fn show_of<'a>(alloc: Global, matches: &ArgMatches<'a>) -> Result<Asked<'a>, AllocError> {
    let request = request_to_show(matches);
    match matches.get_strs("FILE") {
        Some(names) if !names.is_empty() => {
            let mut files = Vec::new(alloc);
            files.extend_from_slice(names)?;
            Ok(Asked::Files(request, files))
        }
        _ => Ok(Asked::Answer(Answer::Engine(request))),
    }
}

/// What the words of a command line ask for; None if they have no subcommand or lack a line.
fn asked_of<'a>(alloc: Global, matches: &ArgMatches<'a>) -> Result<Option<Asked<'a>>, AllocError> {
    match matches.subcommand() {
        Some(("show", matches)) => Ok(Some(show_of(alloc, matches)?)),
        Some((word, matches)) => Ok(other_of(word, matches)),
        None => Ok(None),
    }
}

/// The same of each subcommand but `show`.
fn other_of<'a>(word: &str, matches: &ArgMatches<'a>) -> Option<Asked<'a>> {
    match word {
        "plays" if matches.get_flag("json") => {
            engine(Request::PlaysJson(matches.get_str("LINE")?))
        }
        "plays" => engine(Request::Plays(matches.get_str("LINE")?)),
        "replay" if matches.get_flag("json") => engine(Request::ReplayJson),
        "replay" => engine(Request::Replay),
        "connect" => Some(Asked::Connect(Call {
            host: matches.get_str("HOST")?,
            port: matches.get_one("PORT")?,
            name: matches.get_str("NAME")?,
            password_file: matches.get_str("password-file"),
            log: matches.get_str("log"),
            json: matches.get_flag("json"),
        })),
        "loop" => engine(Request::Loop),
        _ => None,
    }
}
