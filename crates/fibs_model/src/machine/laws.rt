//! Laws of the machine: what holds of any game, of backgammon. Each function does nothing else: its contract is the
//! law.

ghost use Rattle.fibs_model.specs.Agrees.{AgreesHolds, OnlyLoginHolds};
ghost use Rattle.fibs_model.specs.CanRest.{CanRestHolds, ThisWayLeadsToRest};
ghost use Rattle.fibs_model.specs.Joint.{JointStatement};
ghost use Rattle.fibs_model.specs.Laws.{HeadlineHolds, NothingServedIsStale};
ghost use Rattle.fibs_model.specs.Once.{OneStep, OnceHolds};

/// After every list of events none of which is refused, from every good first board on and for every login, the
/// headline holds. Also, the server of the world never meets a stale line.
pub fn headline()
    ensures headline { HeadlineHolds }
    ensures stale { NothingServedIsStale }
{
    fibs_session::laws::fibs_is_a_game();
    fibs_session::laws::logins_are_quiet();
    fibs_position::laws::good_is_exact();
}

/// After every such list the joint statement holds, which is the core of the headline: what was put on each wire to the
/// client is there, was delivered, or was dropped at a loss; boards on which the user decides stay until a decision is
/// served; at most one decision of a connection is not served; and a connection that did not log in yet shows no board.
pub fn joint_statement()
    ensures { JointStatement }
{
    fibs_session::laws::fibs_is_a_game();
    fibs_session::laws::logins_are_quiet();
    fibs_position::laws::good_is_exact();
}

/// After every such list client and server agree on the board. The boards shown on each connection are the first of
/// those that the server sent there, in their order. While the connection that is logged in is open, the last board
/// sent there is the server's. At rest all of them are shown, so the board shown last is the server's, in all its
/// fields; and if none is shown, the client sent its login there and nothing else.
pub fn agrees()
    ensures agrees { AgreesHolds }
    ensures only_login { OnlyLoginHolds }
{
    fibs_session::laws::fibs_is_a_game();
    fibs_session::laws::logins_are_quiet();
    fibs_position::laws::good_is_exact();
}

/// After every such list, if a connection is open, the world can come to rest without a new one. Whatever the dice,
/// serving its lines and delivering its bytes brings it there, by at most eight events more than there are lines on
/// their way to the server; one way is to serve while there is a line, and otherwise to deliver all bytes. However the
/// lines are served and the bytes delivered, at most five lines more are served than are on their way.
pub fn can_rest()
    ensures can_rest { CanRestHolds }
    ensures way { ThisWayLeadsToRest }
{
    fibs_session::laws::fibs_is_a_game();
    fibs_session::laws::logins_are_quiet();
    fibs_position::laws::good_is_exact();
}

/// While the user decides on the server's board, an event that is accepted leaves that board as it is, or one decision
/// takes effect on it, and the board becomes one of another game.
pub fn one_step()
    ensures { OneStep }
{
    fibs_session::laws::fibs_is_a_game();
}

/// Over every list of events no two decisions take effect on boards of the same game, on whatever connections, unless a
/// board of the server's own comes between them.
pub fn once()
    ensures { OnceHolds }
{
    fibs_session::laws::fibs_is_a_game();
}
