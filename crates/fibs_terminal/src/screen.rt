//! A screen: what a terminal remembers, and the page that is written next.

use crate::memory::Memory;
use crate::record::Record;
use fibs_wording::environment::{Page, Settings};
use std::alloc::Global;
use std::time::Duration;

/// A moment.
#[derive(Clone, Copy)]
pub struct Moment {
    /// The time, in seconds since 1970; None if there is no clock.
    pub time: Option<u64>,
    /// By which times are measured; always the same if there is no clock.
    pub passed: Duration,
}

/// What is remembered, and what is written next.
#[derive(Drop)]
pub struct Screen<'a> {
    pub page: Page<'a>,
    pub memory: Memory,
    /// The file that keeps the matches that have ended.
    pub record: Record<'a>,
    /// Memory ran out, and nothing was written since.
    pub ran_out: bool,
}

impl<'a> Screen<'a> {
    /// A screen on which nothing was shown.
    pub fn new(alloc: Global, settings: Settings<'a>) -> Screen<'a> {
        Screen {
            page: Page {
                alloc,
                settings,
                text: Vec::new(alloc),
            },
            memory: Memory::new(alloc),
            record: Record::new(),
            ran_out: false,
        }
    }
}
