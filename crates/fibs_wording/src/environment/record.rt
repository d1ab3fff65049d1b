//! The file in which a line is kept for each match that has ended.

use crate::environment::config::{is_not_there, said};
use std::alloc::AllocError;
use std::fs::{DirBuilder, File, OpenOptions, metadata};
use std::io;
use std::io::{ErrorKind, Read, Seek, SeekFrom, Write};
use std::os::unix::fs::{DirBuilderExt, OpenOptionsExt};

/// The folder in the place of a user's data, that place in a home, and the file in the folder.
const IN_DATA: &str = "/fibs";

const IN_HOME: &str = "/.local/share";

const IN_FOLDER: &str = "/matches";

/// Who may use the folder, and the file: their owner alone.
const FOLDER_MODE: u32 = 0o700;

const FILE_MODE: u32 = 0o600;

/// How many bytes of the file are read: its last. A line has some sixty.
const MOST_BYTES: u64 = 1 << 22;

/// The file, and its folder, of which neither need be there; no path names them if nothing says where the user's data
/// are.
#[derive(Drop)]
pub struct RecordFile<'a> {
    rt: &'a HostRuntime,
    folder: String,
    path: String,
}

/// The folder: in the place that `XDG_DATA_HOME` names, else in that of the user's home. Empty if there is none.
fn folder_of(rt: &HostRuntime) -> Result<String, AllocError> {
    let mut folder = said(rt, "XDG_DATA_HOME")?;
    // as the specification of this variable asks, another one is as one that is not set
    if !folder.as_bytes().starts_with(b"/") {
        folder = said(rt, "HOME")?;
        if folder.is_empty() {
            return Ok(folder);
        }
        folder.push_str(IN_HOME)?;
    }
    folder.push_str(IN_DATA)?;
    Ok(folder)
}

/// Whether the last line of a file has no end.
fn is_half(file: &mut File) -> io::Result<bool> {
    if file.seek(SeekFrom::End(0))? == 0 {
        return Ok(false);
    }
    file.seek(SeekFrom::End(-1))?;
    let mut last = [0u8];
    let count = file.read(&mut last)?;
    Ok(count == 1 && last[0] != b'\n')
}

impl<'a> RecordFile<'a> {
    /// The file of the user who runs the program.
    ///
    /// Errors: if memory runs out.
    pub fn of(rt: &'a HostRuntime) -> Result<RecordFile<'a>, AllocError> {
        RecordFile::at(rt, folder_of(rt)?)
    }

    /// The file in a folder.
    ///
    /// Errors: if memory runs out.
    pub fn at(rt: &'a HostRuntime, folder: String) -> Result<RecordFile<'a>, AllocError> {
        let mut path = String::from_str(rt.alloc(), folder.as_str())?;
        path.push_str(IN_FOLDER)?;
        Ok(RecordFile { rt, folder, path })
    }

    /// Refuses what is no file with bytes: to open a pipe might never end.
    fn refuse_others(&self) -> io::Result<()> {
        if self.folder.is_empty() {
            return Err(io::Error::from(ErrorKind::NotFound));
        }
        let found = metadata(self.rt, self.path.as_str())?;
        if found.is_file() {
            Ok(())
        } else if found.is_dir() {
            Err(io::Error::from(ErrorKind::IsADirectory))
        } else {
            Err(io::Error::from(ErrorKind::InvalidInput))
        }
    }

    /// Opens the file, to read it and to write at its end. It is made if it is not there, and its folder too.
    fn open(&self) -> io::Result<File> {
        match self.refuse_others() {
            Ok(()) => {}
            Err(error) if error.kind() == ErrorKind::NotFound && !self.folder.is_empty() => {
                DirBuilder::new()
                    .recursive(true)
                    .mode(FOLDER_MODE)
                    .create(self.rt, self.folder.as_str())?;
            }
            Err(error) => return Err(error),
        }
        OpenOptions::new()
            .read(true)
            .append(true)
            .create(true)
            .mode(FILE_MODE)
            .open(self.rt, self.path.as_str())
    }

    /// Appends a line, which has its end, in one write; after the end of the last line, if that has none.
    pub fn append(&self, line: &[u8]) -> io::Result<()> {
        let rt = self.rt;
        let mut file = self.open()?;
        let mut text = Vec::new(rt.alloc());
        if is_half(&mut file)? {
            text.push(b'\n')?;
        }
        text.extend_from_slice(line)?;
        let count = file.write(text.as_slice())?;
        if count < text.len() {
            return Err(io::Error::from(ErrorKind::StorageFull));
        }
        Ok(())
    }

    /// Appends what the file has to a text: nothing, if it is not there; of a long one its last part.
    pub fn read(&self, text: &mut Vec<u8>) -> io::Result<()> {
        match self.refuse_others() {
            Ok(()) => {}
            Err(error) if is_not_there(error.kind()) => return Ok(()),
            Err(error) => return Err(error),
        }
        let mut file = File::open(self.rt, self.path.as_str())?;
        let length = file.seek(SeekFrom::End(0))?;
        file.seek(SeekFrom::Start(length.saturating_sub(MOST_BYTES)))?;
        let _count = file.take(MOST_BYTES).read_to_end(text)?;
        Ok(())
    }
}
