//! How an engine, a conversation and a command line end.

use fibs_engine::fault::EngineFault;
use fibs_test_tools::outcome::Outcome;
use std::process::Abort;

/// Asserts how one ended, and what it printed on both writers. The name and the number say which case it is.
pub fn assert_is(
    rt: &impl Abort,
    name: &str,
    at: usize,
    outcome: &Outcome,
    ending: Result<u8, EngineFault>,
    printed: [&[u8]; 2],
) {
    let [out, err] = printed;
    assert!(rt;
        outcome.is(ending, out, err),
        "{name}, at {at}: {outcome:?}"
    );
}
