//! What the tests of the engines share: text without memory, streams and devices in memory, and how an engine ended.
#![tactic(auto)]

pub mod devices;
pub mod named;
pub mod outcome;
pub mod pipe;
pub mod stumbling;
pub mod text;
