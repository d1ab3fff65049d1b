//! Where a line is in its stream.
ghost use Rattle.std.specs.Prelude.{◌≡◌, ◌++◌, ◌∷◌, [], List, ℕ, OnOk, take};
ghost use Rattle.fibs_lines.specs.Feeding.{Feeds};
ghost use Rattle.fibs_lines.specs.Lines.{value_of};
ghost use Rattle.fibs_json.specs.Counting.{one_more};
ghost use Rattle.fibs_json.specs.Json.{more_members};
ghost use Rattle.fibs_json.specs.Passing.{AnyAt, IsPlaceIn, ObjectAt, ending_at, members_of};

use crate::line::{append_front, append_object};
use crate::members::append_whole;
use fibs_lines::{Fed, Line};
use std::alloc::AllocError;

/// The place of the line of a stream that has not ended.
#[derive(Clone, Copy)]
pub(crate) struct Place {
    /// How many lines have ended.
    lines: u64,
    /// How many bytes were read.
    bytes: u64,
    /// How many of them come before the line.
    offset: u64,
}

impl Place {
    /// Nothing was read.
    pub(crate) fn new() -> Place
        ensures { IsPlaceIn result [] }
    {
        Place {
            lines: 0,
            bytes: 0,
            offset: 0,
        }
    }

    /// The number of the line.
    pub(crate) fn number(&self) -> u64
        ensures { result ≡ one_more self.now.lines }
    {
        self.lines.saturating_add(1)
    }

    /// These bytes were read, and a line has ended, or none.
    pub(crate) fn pass(&mut self, fed: &Fed<'_>)
        ensures { (s piece : List ℕ) → IsPlaceIn self.old s → Feeds s piece fed.now
            → IsPlaceIn self.new (s ++ take fed.now.used piece) }
    {
        self.bytes = self.bytes.saturating_add(fed.used as u64);
        if fed.line.is_some() {
            self.lines = self.lines.saturating_add(1);
            self.offset = self.bytes;
        }
    }

    /// Appends its members.
    fn append_members(&self, text: &mut Vec<u8>) -> Result<(), AllocError>
        ensures { OnOk result (text.new.items ≡ text.old.items ++ more_members (members_of self.now)) }
    {
        append_whole(b"line_number", self.number(), text)?;
        append_whole(b"offset", self.offset, text)
    }

    /// Appends its members to the object that a text ends with.
    fn append_inside(&self, text: &mut Vec<u8>) -> Result<(), AllocError>
        ensures { OnOk result ((front : List ℕ) → text.old.items ≡ front ++ (125 ∷ [])
            → text.new.items ≡ front ++ (more_members (members_of self.now) ++ (125 ∷ []))) }
    {
        let inside = text.as_slice().len().saturating_sub(1);
        text.truncate(inside);
        self.append_members(text)?;
        text.push(b'}')?;
        Ok(())
    }

    /// Appends the object of a line that is here, without a line end.
    pub(crate) fn append_object(
        &self,
        line: &Line<'_>,
        text: &mut Vec<u8>,
    ) -> Result<(), AllocError>
        ensures { OnOk result ((shown : List ℕ) × ObjectAt self.now (value_of line.now) shown
            × (text.new.items ≡ text.old.items ++ shown)) }
    {
        append_object(line, text)?;
        self.append_inside(text)
    }

    /// Appends the object of a line that is here, if there is one, with a line end.
    pub(crate) fn append_any(
        &self,
        line: &Option<Line<'_>>,
        text: &mut Vec<u8>,
    ) -> Result<(), AllocError>
        ensures { OnOk result ((added : List ℕ) × AnyAt ObjectAt self.now line.now added
            × (text.new.items ≡ text.old.items ++ added)) }
    {
        match line {
            None => Ok(()),
            Some(line) => {
                self.append_object(line, text)?;
                text.push(b'\n')?;
                Ok(())
            }
        }
    }

    /// Appends the object of a line that is here and has not ended, if it has these bytes, with a line end.
    pub(crate) fn append_unfinished(
        &self,
        bytes: &[u8],
        text: &mut Vec<u8>,
    ) -> Result<(), AllocError>
        ensures { OnOk result (text.new.items ≡ text.old.items ++ ending_at self.now bytes.now) }
    {
        if bytes.is_empty() {
            return Ok(());
        }
        append_front(b"unfinished", bytes, text)?;
        append_whole(b"bytes", bytes.len() as u64, text)?;
        self.append_members(text)?;
        text.extend_from_slice(b"}\n")?;
        Ok(())
    }
}
