//! What the program reads: the standard input, or files that the command line names, one after another.
ghost use Rattle.std.specs.Prelude.{◌≡◌, ◌≤◌, length};

use crate::noting::Trouble;
use std::fs::File;
use std::io;
use std::io::{Read, Stdin};

/// How many bytes of a file's name stand in the line that says why it can't be read.
const MOST_NAME: usize = 32;

/// A file with its name.
#[derive(Drop)]
struct Named {
    name: String,
    file: File,
}

/// Files that are read one after another, as `cat` prints them.
#[derive(Drop)]
pub struct Files {
    /// In the order in which they are read.
    files: Vec<Named>,
    /// How many of them have been read to their end.
    read: usize,
}

impl Files {
    /// No file.
    pub fn new(rt: &HostRuntime) -> Files {
        Files {
            files: Vec::new(rt.alloc()),
            read: 0,
        }
    }

    /// Opens a file, which is read after those that are there.
    ///
    /// Errors: why it can't be opened, and `OutOfMemory`.
    pub fn open(&mut self, rt: &HostRuntime, name: &str) -> io::Result<()> {
        let file = File::open(rt, name)?;
        let name = String::from_str(rt.alloc(), name)?;
        self.files.push(Named { name, file })?;
        Ok(())
    }

    /// The name of the file that is read now.
    fn name(&self) -> Option<&str> {
        let named = self.files.as_slice().get(self.read)?;
        Some(named.name.as_str())
    }
}

impl Read for Files {
    fn read(&mut self, buf: &mut [u8]) -> io::Result<usize> {
        for at in self.read..self.files.len() {
            self.read = at;
            let count = self.files[at].file.read(buf)?;
            if count > 0 {
                return Ok(count);
            }
        }
        self.read = self.files.len();
        Ok(0)
    }
}

/// Where what is read comes from.
#[derive(Drop)]
enum Source {
    /// The standard input.
    Standard(Stdin),
    /// Files.
    Files(Files),
}

/// What is read, which keeps why its last call failed.
#[derive(Drop)]
pub struct Input {
    source: Source,
    trouble: Option<Trouble>,
}

impl Input {
    /// The standard input. No call has failed.
    pub fn standard(rt: &HostRuntime) -> Input {
        Input {
            source: Source::Standard(rt.stdin()),
            trouble: None,
        }
    }

    /// These files. No call has failed.
    pub fn of_files(files: Files) -> Input {
        Input {
            source: Source::Files(files),
            trouble: None,
        }
    }

    /// Why the last call failed, if it did.
    pub fn trouble(&self) -> Option<Trouble>
        ensures { result ≡ self.now.trouble }
    {
        self.trouble
    }

    /// What the line calls it that says why it can't be read: of a file the last bytes of its name.
    pub fn name(&self) -> &[u8]
        ensures { length result.now ≤ 32 }
    {
        match &self.source {
            Source::Standard(_) => b"standard input",
            Source::Files(files) => match files.name() {
                Some(name) => end_of(name.as_bytes()),
                None => b"a file",
            },
        }
    }
}

/// The last bytes of a file's name.
pub fn end_of(name: &[u8]) -> &[u8]
    ensures { length result.now ≤ 32 }
{
    &name[name.len().saturating_sub(MOST_NAME)..]
}

impl Read for Input {
    fn read(&mut self, buf: &mut [u8]) -> io::Result<usize> {
        let answer = match &mut self.source {
            Source::Standard(stdin) => stdin.read(buf),
            Source::Files(files) => files.read(buf),
        };
        self.trouble = answer.as_ref().err().map(Trouble::of);
        answer
    }
}
