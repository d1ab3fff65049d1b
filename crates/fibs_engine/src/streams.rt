//! The streams of the program, which keep why they failed.

use crate::input::{Files, Input, end_of};
use crate::noting::{Noted, Trouble, write_trouble};
use crate::writing::Unwritten;
use std::io;
use std::io::{Stdout, Write};

/// What is read, and the standard output.
#[derive(Drop)]
pub struct Streams {
    /// What is typed, or read from a pipe or from files.
    pub input: Input,
    /// Where is printed.
    pub out: Noted<Stdout>,
}

impl Streams {
    /// The streams of the program. None has failed.
    pub fn new(rt: &HostRuntime) -> Streams {
        Streams {
            input: Input::standard(rt),
            out: Noted::new(rt.stdout()),
        }
    }

    /// Reads these files from now on, one after another, in place of the standard input.
    ///
    /// Errors: why the first can't be opened that can't, which is said on `err` too.
    pub fn read_files<E: Write>(
        &mut self,
        rt: &HostRuntime,
        names: &[&str],
        err: &mut E,
    ) -> io::Result<()> {
        let mut files = Files::new(rt);
        for name in names {
            if let Err(error) = files.open(rt, name) {
                // if it can't be printed, the status alone says it
                let _said = write_trouble(end_of(name.as_bytes()), Some(Trouble::of(&error)), err);
                return Err(error);
            }
        }
        self.input = Input::of_files(files);
        Ok(())
    }

    /// Whether the last that was printed went to a pipe that its reader has closed, as `head` does: nothing is wrong
    /// then.
    pub fn is_unread(&self) -> bool {
        matches!(self.out.trouble(), Some(Trouble::Unread))
    }

    /// Says which of them failed and why, if one did.
    pub fn say_trouble<E: Write>(&self, err: &mut E) -> Result<(), Unwritten> {
        match self.out.trouble() {
            None => write_trouble(self.input.name(), self.input.trouble(), err),
            trouble => write_trouble(b"standard output", trouble, err),
        }
    }
}
