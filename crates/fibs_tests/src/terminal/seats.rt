//! A client and a terminal, to which a server's lines and typed lines are given.

use fibs_connect::fault::FrontFault;
use fibs_connect::front::Front;
use fibs_connect::said::Said;
use fibs_connect::typed_line::TypedLine;
use fibs_connect::wish::Wish;
use fibs_connect::words::Words;
use fibs_messages::Reading;
use fibs_position::{GameBoard, Numbers};
use fibs_session::typed::typing::{Typed, read_typed};
use fibs_session::{Client, Directory, Login, Taken};
use fibs_terminal::Terminal;
use fibs_wording::environment::{Settings, Zone};
use std::io;
use std::io::{ErrorKind, Write};
use std::process::Abort;
use std::time::{Clock, Duration};

/// A clock that stands still, at 13:07 on 5 January 2003.
#[derive(Clone, Copy)]
pub struct Stopped;

impl Clock for Stopped {
    fn monotonic(&self) -> io::Result<Duration> {
        Ok(Duration::from_secs(0))
    }

    fn since_1970(&self) -> io::Result<Duration> {
        Ok(Duration::from_secs(1_041_772_020))
    }
}

/// A cue of a scene: what happens at a seat.
#[derive(Clone, Copy)]
pub enum Cue<'a> {
    /// The server sends a line.
    Hears(&'a [u8]),
    /// The user types a line.
    Types(&'a [u8]),
    /// The terminal lets the user type.
    Rests,
    /// A connection is made.
    Opens,
    /// No connection can be made.
    Fails,
    /// The connection is over.
    Loses,
}

/// The settings of a terminal of 60 columns, with colours.
pub fn narrow_settings() -> Settings<'static> {
    Settings {
        columns: 60,
        rows: 0,
        scrolls_below: false,
        above: None,
        colour: true,
        bell: false,
        title: false,
        letters: None,
        is_turned: false,
        numbers: Numbers::TheOwn,
        words: false,
        is_short: false,
        utf8: false,
        zone: Zone::utc(),
        host: b"fibs.com",
        port: 4321,
    }
}

/// A client, and the players that it knows.
#[derive(Drop)]
struct TestSeat {
    client: Client,
    directory: Directory,
}

impl TestSeat {
    /// The seat of a user who is connected.
    fn new(rt: &(impl Abort + AllocGlobal)) -> TestSeat {
        let login = Login::new(b"ann", b"secret").expect(rt, "it is a login");
        let mut client = Client::new(login);
        let _login = client.open();
        let directory = Directory::new(rt.alloc());
        TestSeat { client, directory }
    }

    /// Tells what the server says by a line.
    fn hear<F: Front>(&mut self, line: &[u8], front: &mut F) -> Result<(), FrontFault> {
        let heard = self.client.read(line);
        match self.client.got(heard).taken {
            Some(taken) => tell_taken(&mut self.directory, &taken, front),
            None => Ok(()),
        }
    }

    /// Gives a line to the client, and tells what it answers.
    fn say<F: Front>(&mut self, line: &[u8], front: &mut F) -> Result<(), FrontFault> {
        match read_typed(&self.client, line) {
            Typed::Decision(decision) => front.tell(&match &self.client.decide(&decision) {
                Ok(command) => Said::Sent(command),
                Err(why) => Said::Refused(*why),
            }),
            Typed::Plain(plain) => front.tell(&match &self.client.plain(&plain) {
                Ok(command) => Said::Sent(command),
                Err(why) => Said::NotSent(*why),
            }),
            Typed::Order | Typed::Withdrawal => Ok(()),
            Typed::Unknown => front.tell(&Said::Unknown),
        }
    }

    /// Takes a line that is typed.
    fn take_line<F: Words>(&mut self, line: &[u8], front: &mut F) -> Result<(), FrontFault> {
        let mut typed = TypedLine::new();
        let _fits = typed.try_extend_from_slice(line);
        match front.wish(&self.client, &self.directory, &mut typed)? {
            Wish::Say => self.say(typed.as_slice(), front),
            Wish::Send => front.tell(&Said::Passed(typed.as_slice())),
            Wish::Open
            | Wish::Players
            | Wish::Quit
            | Wish::TooLong
            | Wish::Listen
            | Wish::Answered => Ok(()),
        }
    }

    /// Takes a step.
    fn take_step<F: Words>(&mut self, step: Cue<'_>, front: &mut F) -> Result<(), FrontFault> {
        match step {
            Cue::Hears(line) => self.hear(line, front),
            Cue::Types(line) => self.take_line(line, front),
            Cue::Rests => front.rest(&self.client, &self.directory),
            Cue::Opens => {
                let _login = self.client.open();
                front.tell(&Said::Opened)
            }
            Cue::Fails => front.tell(&Said::NoConnection(ErrorKind::ConnectionRefused)),
            Cue::Loses => front.tell(&Said::Lost(&self.client.lose())),
        }
    }

    /// Takes steps one after another.
    fn take_steps<F: Words>(&mut self, steps: &[Cue<'_>], front: &mut F) -> Result<(), FrontFault> {
        for step in steps {
            self.take_step(*step, front)?;
        }
        Ok(())
    }
}

/// Tells of a line, with the board of the user's game that it says.
fn tell_heard<F: Front>(
    game: Option<&GameBoard>,
    taken: &Taken<'_>,
    front: &mut F,
) -> Result<(), FrontFault> {
    front.tell(&Said::Heard(&taken.line, &taken.reading, game))
}

/// Tells what was taken of a line.
fn tell_taken<F: Front>(
    directory: &mut Directory,
    taken: &Taken<'_>,
    front: &mut F,
) -> Result<(), FrontFault> {
    let found = game_in(&taken.reading);
    tell_heard(found.as_ref(), taken, front)?;
    note(directory, &taken.reading, front)?;
    match &taken.confirmed {
        Some(asked) => front.tell(&Said::Confirmed(asked)),
        None => Ok(()),
    }
}

/// The board that a reading says, with its position, if the user plays in its game.
fn game_in(reading: &Reading<'_>) -> Option<GameBoard> {
    match reading {
        Reading::Board(board) => GameBoard::of(board).ok(),
        _ => None,
    }
}

/// Tells of the user's game, and notes a player.
fn note<F: Front>(
    directory: &mut Directory,
    reading: &Reading<'_>,
    front: &mut F,
) -> Result<(), FrontFault> {
    match reading {
        Reading::Board(_) => match game_in(reading) {
            Some(game) => front.tell(&Said::Game(&game)),
            None => Ok(()),
        },
        Reading::Numbered(message) => match directory.note(message) {
            Ok(_) => Ok(()),
            Err(_) => Err(FrontFault::Output),
        },
        _ => Ok(()),
    }
}

/// Shows on a writer what the screen shows after some steps of a user who is connected.
pub fn show_on<W: Write + Drop>(
    rt: &(impl Abort + AllocGlobal),
    settings: Settings<'_>,
    steps: &[Cue<'_>],
    out: W,
) -> Result<(), FrontFault> {
    let mut terminal = Terminal::new(rt.alloc(), out, Stopped, settings);
    TestSeat::new(rt).take_steps(steps, &mut terminal)
}
