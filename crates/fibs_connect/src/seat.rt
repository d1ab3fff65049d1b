//! A player's seat: the client, the players that it knows, and the connection, if there is one.
ghost use Rattle.std.specs.Prelude.{◌≡◌, ◌≤◌, ◌∷◌, [], Some, length, true, false, IfOk, OnOk, IsSome};
ghost use Rattle.fibs_messages.specs.Directory.{IsDirectory};
ghost use Rattle.fibs_connect.specs.Turns.Turn.{FitsStream, bytes_of, is_there};
ghost use Rattle.fibs_connect.specs.Converse.Seats.{Answered, Connects, Opens, OpensAndLoses, Passes, PassesOn, Refuses, TakesTurn, seat_of};
ghost use Rattle.fibs_connect.specs.Told.{opened_said};
ghost use Rattle.fibs_connect.specs.Wishes.{wish_value};

use crate::front::Front;
use crate::players::tell_players;
use crate::said::Said;
use crate::turns::loss::end_connection;
use crate::turns::sending::{send_as_it_is, send_command};
use crate::turns::{Ending, ExchangeFault, talk, talk_offline};
use crate::typed_line::TYPED_LIMIT;
use crate::wish::Wish;
use fibs_engine::dial::Dial;
use fibs_engine::link::Link;
use fibs_session::{Client, Directory, Login, Refusal};
use std::alloc::Global;

/// Whether more lines are answered.
#[derive(Clone, Copy)]
pub enum Going {
    /// The next line is answered.
    On,
    /// The player leaves.
    Away,
}

/// The client, the players that it knows, and the connection, if there is one.
#[derive(Drop)]
pub struct Seat<S: Link + Drop> {
    pub(crate) client: Client,
    pub(crate) directory: Directory,
    pub(crate) stream: Option<S>,
}

impl<S: Link + Drop> Seat<S> {
    /// A seat that never had a connection.
    pub fn new(alloc: Global, login: Login) -> Seat<S>
        ensures { FitsStream result.client (is_there result.stream) }
    {
        Seat {
            client: Client::new(login),
            directory: Directory::new(alloc),
            stream: None,
        }
    }

    /// Does what a typed line asks for.
    pub fn answer<D: Dial<Stream = S>, F: Front>(
        &mut self,
        wish: Wish,
        line: &[u8],
        server: &mut D,
        front: &mut F,
    ) -> Result<Going, ExchangeFault>
        requires { FitsStream self.old.client (is_there self.old.stream) }
        ensures fits { OnOk result (FitsStream self.new.client (is_there self.new.stream)) }
        ensures answered { IfOk result (λ going. Answered F.tells (wish_value wish line.now)
            (seat_of S.remaining S.contents self.old.client self.old.directory self.old.stream)
            (seat_of S.remaining S.contents self.new.client self.new.directory self.new.stream)
            front.old front.new going) }
    {
        match wish {
            Wish::Quit => return Ok(Going::Away),
            Wish::Open => self.open(server, front)?,
            Wish::Players => tell_players(&self.directory, front)?,
            Wish::TooLong => front.tell(&Said::Unknown)?,
            Wish::Listen => self.take_turn(None, front)?,
            Wish::Say => self.take_turn(Some(line), front)?,
            Wish::Send => self.pass(line, front)?,
            Wish::Answered => {}
        }
        Ok(Going::On)
    }

    /// Connects, if there is no connection.
    pub fn open<D: Dial<Stream = S>, F: Front>(
        &mut self,
        server: &mut D,
        front: &mut F,
    ) -> Result<(), ExchangeFault>
        requires { FitsStream self.old.client (is_there self.old.stream) }
        ensures fits { OnOk result (FitsStream self.new.client (is_there self.new.stream)) }
        ensures refused { is_there self.old.stream ≡ true → OnOk result (Refuses F.tells
            (seat_of S.remaining S.contents self.old.client self.old.directory self.old.stream)
            (seat_of S.remaining S.contents self.new.client self.new.directory self.new.stream)
            front.old front.new) }
        ensures connects { is_there self.old.stream ≡ false → OnOk result (Connects F.tells
            (seat_of S.remaining S.contents self.old.client self.old.directory self.old.stream)
            (seat_of S.remaining S.contents self.new.client self.new.directory self.new.stream)
            front.old front.new) }
    {
        match &self.stream {
            Some(_) => front.tell(&Said::Refused(Refusal::AlreadyOpen)),
            None => {
                front.flush()?;
                match server.dial() {
                    Err(why) => front.tell(&Said::NoConnection(why)),
                    Ok(stream) => self.log_in(stream, front),
                }
            }
        }
    }

    /// Writes the login on a new connection. No player of it is known yet.
    fn log_in<F: Front>(&mut self, mut stream: S, front: &mut F) -> Result<(), ExchangeFault>
        requires { FitsStream self.old.client false }
        ensures fits { OnOk result (FitsStream self.new.client (is_there self.new.stream)) }
        ensures players { OnOk result (IsDirectory [] self.new.directory) }
        ensures opens { OnOk result (IsSome self.new.stream →
            F.tells front.old (opened_said ∷ []) front.new × Opens self.old.client self.new.client) }
        ensures loses { OnOk result (is_there self.new.stream ≡ false →
            OpensAndLoses F.tells self.old.client self.new.client front.old front.new) }
    {
        self.directory.clear();
        front.tell(&Said::Opened)?;
        match self.client.open() {
            Err(_) => unreachable!(),
            Ok(command) => match send_command(&command, &mut stream) {
                Ok(()) => {
                    self.stream = Some(stream);
                    Ok(())
                }
                Err(_) => {
                    self.stream = None;
                    let _lost = end_connection(&mut self.client, front)?;
                    Ok(())
                }
            },
        }
    }

    /// Sends a line to the server as it is, past the client, and hears the server.
    fn pass<F: Front>(&mut self, line: &[u8], front: &mut F) -> Result<(), ExchangeFault>
        requires { FitsStream self.old.client (is_there self.old.stream) }
        ensures fits { OnOk result (FitsStream self.new.client (is_there self.new.stream)) }
        ensures passed { OnOk result (Passes F.tells line.now
            (seat_of S.remaining S.contents self.old.client self.old.directory self.old.stream)
            (seat_of S.remaining S.contents self.new.client self.new.directory self.new.stream)
            front.old front.new) }
    {
        if line.len() > TYPED_LIMIT {
            return front.tell(&Said::Unknown);
        }
        match self.stream.take() {
            None => front.tell(&Said::Refused(Refusal::Offline)),
            Some(stream) => self.pass_on(line, stream, front),
        }
    }

    /// The same if there is a connection.
    fn pass_on<F: Front>(
        &mut self,
        line: &[u8],
        mut stream: S,
        front: &mut F,
    ) -> Result<(), ExchangeFault>
        requires fits { FitsStream self.old.client true }
        requires short { length line.now ≤ TYPED_LIMIT }
        ensures fits { OnOk result (FitsStream self.new.client (is_there self.new.stream)) }
        ensures passed { OnOk result (PassesOn F.tells line.now
            (seat_of S.remaining S.contents self.old.client self.old.directory (Some stream))
            (seat_of S.remaining S.contents self.new.client self.new.directory self.new.stream)
            front.old front.new) }
    {
        match send_as_it_is(line, &mut stream) {
            Ok(()) => {
                front.tell(&Said::Passed(line))?;
                self.stream = Some(stream);
                self.take_turn(None, front)
            }
            Err(_) => {
                self.stream = None;
                let _lost = end_connection(&mut self.client, front)?;
                Ok(())
            }
        }
    }

    /// One turn of the client. A connection that is lost is given up.
    pub(crate) fn take_turn<F: Front>(
        &mut self,
        typed: Option<&[u8]>,
        front: &mut F,
    ) -> Result<(), ExchangeFault>
        requires { FitsStream self.old.client (is_there self.old.stream) }
        ensures fits { OnOk result (FitsStream self.new.client (is_there self.new.stream)) }
        ensures turned { OnOk result (TakesTurn F.tells (bytes_of typed.entry)
            (seat_of S.remaining S.contents self.old.client self.old.directory self.old.stream)
            (seat_of S.remaining S.contents self.new.client self.new.directory self.new.stream)
            front.old front.new) }
    {
        match self.stream.take() {
            None => {
                let _quiet = talk_offline(&mut self.client, typed, front)?;
            }
            Some(mut stream) => {
                let ending = talk(
                    &mut self.client,
                    &mut self.directory,
                    &mut stream,
                    typed,
                    front,
                )?;
                if let Ending::Quiet = ending {
                    self.stream = Some(stream);
                }
            }
        }
        Ok(())
    }
}
