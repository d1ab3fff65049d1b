//! How an engine ends, for the tests.

use crate::text::{Text, text_of};
use fibs_engine::fault::EngineFault;

/// How an engine ended, and what it printed on standard output and on standard error.
#[derive(Debug, Drop)]
pub struct Outcome {
    pub ending: Result<u8, EngineFault>,
    pub out: Text,
    pub err: Text,
}

impl Outcome {
    /// An engine that ended so, and printed these bytes.
    pub fn new(ending: Result<u8, EngineFault>, out: &[u8], err: &[u8]) -> Outcome {
        Outcome {
            ending,
            out: text_of(out),
            err: text_of(err),
        }
    }

    /// Whether it ended and printed so.
    pub fn is(&self, ending: Result<u8, EngineFault>, out: &[u8], err: &[u8]) -> bool {
        self.ending == ending && self.out.as_slice() == out && self.err.as_slice() == err
    }
}
