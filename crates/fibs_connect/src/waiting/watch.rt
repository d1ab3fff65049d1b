//! Which comes first, by the descriptors of what is typed and of the server.

use crate::watch::{First, Patience, Watch};
use mio::unix::SourceFd;
use mio::{Events, Interest, Poll, Token};
use std::alloc::Global;
use std::io;
use std::net::Net;
use std::os::fd::{AsRawFd, RawFd};
use std::time::Duration;

/// The token of what is typed.
const TYPED: Token = Token(0);

/// The token of what is heard.
const HEARD: Token = Token(1);

/// How many events are taken at once.
const ROOM: usize = 2;

/// Watches a descriptor of typed lines and a set of sockets.
///
/// The set is a `Poll` of its own, in which nobody waits: it is watched as one descriptor, which is readable as long as
/// a socket of it is.
#[derive(Drop)]
pub struct PollWatch<'a> {
    typed: RawFd,
    heard: &'a Poll,
    poll: Poll,
    events: Events<Global>,
}

impl<'a> PollWatch<'a> {
    /// None if the descriptor can't be watched: it is a file, or closed.
    pub fn new<N: Net>(
        net: &N,
        alloc: Global,
        typed: RawFd,
        heard: &'a Poll,
    ) -> io::Result<PollWatch<'a>> {
        let poll = Poll::new(net)?;
        let events = Events::with_capacity(alloc, ROOM)?;
        poll.registry()
            .register(&mut SourceFd(&typed), TYPED, Interest::READABLE)?;
        poll.registry().register(&mut SourceFd(&heard.as_raw_fd()), HEARD, Interest::READABLE)?;
        Ok(PollWatch {
            typed,
            heard,
            poll,
            events,
        })
    }

    /// Waits for an event, so long at most if that is given. An event tells of a change, so each wait asks anew for
    /// what is ready already.
    fn wait(&mut self, time: Option<Duration>) -> io::Result<Option<First>> {
        let registry = self.poll.registry();
        registry.reregister(&mut SourceFd(&self.typed), TYPED, Interest::READABLE)?;
        registry.reregister(
            &mut SourceFd(&self.heard.as_raw_fd()),
            HEARD,
            Interest::READABLE,
        )?;
        self.poll.poll(&mut self.events, time)?;
        let mut first = None;
        for event in &self.events {
            if event.token() == TYPED {
                return Ok(Some(First::Typed));
            }
            first = Some(First::Heard);
        }
        Ok(first)
    }
}

impl Watch for PollWatch<'_> {
    fn first(&mut self) -> First {
        for _ in 0..u64::MAX {
            match self.wait(None) {
                Ok(None) => {}
                Ok(Some(first)) => return first,
                Err(_) => return First::Typed,
            }
        }
        First::Typed
    }
}

impl Patience for PollWatch<'_> {
    fn first_within(&mut self, time: Duration) -> Option<First> {
        match self.wait(Some(time)) {
            Ok(first) => first,
            Err(_) => Some(First::Typed),
        }
    }
}
