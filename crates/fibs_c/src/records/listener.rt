//! What is heard of a stream, as the events of its lines and the refusal of its login.

ghost use Rattle.std.specs.Prelude.{◌≡◌, [], None};
ghost use Rattle.fibs_events.specs.Known.{known_of, opponent_of};
ghost use Rattle.fibs_events.specs.Asking.{not_asked};

use fibs_events::Events;
use fibs_events::asking::Asking;

/// Hears the lines of a stream, which go on over connections, and the bytes of a connection, which alone tell a login
/// that is refused.
#[derive(Drop)]
pub struct Listener {
    /// What the lines have said.
    pub lines: Events,
    /// What the bytes of this connection have said of the login.
    pub login: Asking,
}

impl Listener {
    /// One that has heard nothing.
    pub fn new() -> Listener
        ensures login { result.login ≡ not_asked }
        ensures known { known_of result.lines ≡ None }
        ensures opponent { opponent_of result.lines ≡ [] }
    {
        Listener {
            lines: Events::new(),
            login: Asking::new(),
        }
    }
}
