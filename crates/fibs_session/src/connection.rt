//! Opening and losing a connection, by the session's fields.

ghost use Rattle.std.specs.Prelude.{◌≡◌, IsErr, option_map};
ghost use Rattle.fibs_session.specs.Calls.FieldSteps.{fresh, open_fields, open_send, open_refusal_of, lose_fields};
ghost use Rattle.fibs_commands.specs.LoginOf.{login_of};

use crate::histories::Refusal;
use crate::session::Session;
use crate::taken::Outstanding;
use fibs_commands::{CommandText, Login};

impl Session {
    ghost use Rattle.fibs_session.specs.Calls.SessionOf.{session_of, ask_of, handed, refusal_in};

    /// A session that has heard nothing.
    pub(crate) fn fresh(login: Login, online: bool) -> Session
        ensures { session_of result ≡ fresh (login_of login) online }
    {
        Session {
            login,
            online,
            welcomed: false,
            flags: None,
            automove_sent: false,
            greedy_sent: false,
            shown: None,
            waiting: None,
            ordered: false,
        }
    }

    /// A connection is opened.
    pub(crate) fn begin_connection(&mut self) -> Result<CommandText, Refusal>
        ensures fields { session_of self.new ≡ open_fields (session_of self.old) }
        ensures handed { handed result ≡ open_send (session_of self.old) }
        ensures refusal { refusal_in result ≡ open_refusal_of (session_of self.old) }
        ensures kept { IsErr result → session_of self.new ≡ session_of self.old }
    {
        if self.online {
            return Err(Refusal::AlreadyOpen);
        }
        *self = Session::fresh(self.login, true);
        Ok(self.login.command())
    }

    /// The connection is lost.
    pub(crate) fn end_connection(&mut self) -> Option<Outstanding>
        ensures fields { session_of self.new ≡ lose_fields (session_of self.old) }
        ensures result { option_map ask_of result ≡ (session_of self.old).waiting }
    {
        let waiting = self.waiting;
        if self.online {
            self.online = false;
            self.welcomed = false;
            self.flags = None;
            self.shown = None;
            self.waiting = None;
            self.ordered = false;
        }
        waiting
    }
}
