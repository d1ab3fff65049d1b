//! Tests of what is refused allocations, each in turn, of sockets that are watched, and of a caller that is proved. The
//! others need no proof: worked lines and turns are in `tests/rows`, histories in `tests/worlds`, and what is seen of
//! the sources alone in `rust/src/tests` and `rust/fibs-client/src/tests`.
#![tactic(auto)]

#[cfg(test)]
mod boards;
#[cfg(test)]
mod client;
#[cfg(test)]
mod connect;
#[cfg(test)]
mod example;
#[cfg(test)]
mod lines;
#[cfg(test)]
mod messages;
#[cfg(test)]
mod outcomes;
#[cfg(test)]
mod play_loop;
#[cfg(test)]
mod plays;
#[cfg(test)]
mod positions;
#[cfg(test)]
mod replay;
#[cfg(test)]
mod show;
#[cfg(test)]
mod terminal;
#[cfg(test)]
mod turns;
#[cfg(test)]
mod watch;
#[cfg(test)]
mod world;
