//! What is written next at a terminal.
ghost use Rattle.std.specs.Prelude.{◌≡◌, ◌++◌, ◌-◌, OnOk};

use crate::environment::broken::break_at_spaces;
use crate::environment::pieces::append_all;
use crate::environment::settings::Settings;
use crate::environment::shown::append_shown;
use std::alloc::{AllocError, Global};

/// The byte that rings the bell.
const BELL: u8 = 7;

/// No row of the screen's own words is wider.
const WIDEST: usize = 79;

/// What is written next, and what is known of the terminal.
#[derive(Drop)]
pub struct Page<'a> {
    pub alloc: Global,
    pub settings: Settings<'a>,
    /// What is written next.
    pub text: Vec<u8>,
}

impl<'a> Page<'a> {
    /// Appends words to what is written next.
    pub fn say(&mut self, words: &[u8]) -> Result<(), AllocError>
        ensures said { OnOk result (self.new.text.items ≡ self.old.text.items ++ words.now) }
        ensures settings { self.new.settings ≡ self.old.settings }
    {
        self.text.extend_from_slice(words)
    }

    /// Appends pieces to what is written next.
    pub fn say_all(&mut self, pieces: &[&[u8]]) -> Result<(), AllocError> {
        append_all(pieces, &mut self.text)
    }

    /// How many columns a row of the server's words may have: the last one of the terminal stays free.
    pub fn columns(&self) -> usize
        ensures { result ≡ self.now.settings.columns - 1 }
    {
        self.settings.columns.saturating_sub(1)
    }

    /// Shows bytes of the server in a row; in more, if it is wider than the terminal.
    pub fn show_row(&mut self, bytes: &[u8]) -> Result<(), AllocError> {
        let start = self.text.len();
        append_shown(bytes, self.settings.utf8, &mut self.text)?;
        self.end_row(start)
    }

    /// Ends the row that begins at a place. Its words go on in another row if it is wider than the terminal.
    fn end_row(&mut self, start: usize) -> Result<(), AllocError> {
        break_at_spaces(start, self.columns(), &mut self.text);
        self.say(b"\n")
    }

    /// Whether a row of the screen's own words has room for so many bytes.
    pub fn has_room(&self, bytes: usize) -> bool {
        bytes <= self.columns().min(WIDEST)
    }

    /// Says words in a row, and others behind them, or in a row of their own if there is no room.
    pub fn say_joined(&mut self, words: &[u8], others: &[u8]) -> Result<(), AllocError> {
        let wide = words.len().saturating_add(others.len()).saturating_add(1);
        let between: &[u8] = if self.has_room(wide) { b" " } else { b"\n" };
        self.say_all(&[words, between, others, b"\n"])
    }

    /// Rings the bell.
    pub fn ring(&mut self) -> Result<(), AllocError> {
        if self.settings.bell {
            self.text.extend_from_slice(&[BELL])?;
        }
        Ok(())
    }
}
