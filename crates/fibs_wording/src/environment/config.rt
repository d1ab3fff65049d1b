//! A file of the user's own settings.
ghost use Rattle.std.specs.Prelude.{◌≡◌};
ghost use Rattle.fibs_wording.specs.SettingWords.{numbers_in, place_in};

use fibs_fields::split::split;
use fibs_position::Numbers;
use std::alloc::AllocError;
use std::env::VarError;
use std::fs::{File, metadata};
use std::io::{ErrorKind, Read};
use std::{env, io};

/// A path by which one says that there are no settings.
const NOTHING: &[u8] = b"/dev/null";

/// The longest file that is read.
const MOST_BYTES: usize = 1 << 16;

/// The place of the file in a folder of settings, and that of this folder in a home.
const IN_FOLDER: &str = "/fibs/config";

const IN_HOME: &str = "/.config";

/// How a board is told in words that comes by itself.
#[derive(Clone, Copy)]
pub enum Telling {
    /// Whole.
    Long,
    /// By what is new, after the board that was told before.
    Short,
}

/// What a line of the file asks for.
#[derive(Clone, Copy)]
pub enum Setting<'a> {
    /// Nothing: it is empty or a remark, or for who starts the program.
    Nothing,
    /// What a player says is hidden.
    Gag(&'a [u8]),
    /// Shouts are hidden, and who comes and goes.
    Quiet,
    /// Who comes and goes is shown, whatever the user does.
    Arrivals,
    /// Boards are told in words: each whole, or by what is new.
    Words(Telling),
    /// No letters are bold, and nothing has a colour.
    NoColour,
    /// The bell never rings.
    NoBell,
    /// No line is kept of a match that has ended.
    NoRecord,
    /// The title of the window stays as it is.
    NoTitle,
    /// The standing order to roll is given on each connection.
    OrderRoll,
    /// A connection that is lost is opened again.
    Reconnect,
    /// The letters of the player's checkers and of the opponent's.
    Letters([u8; 2]),
    /// The player's home is above in a picture.
    HomeAbove,
    /// Whose numbers the places have.
    Numbers(Numbers),
    /// Whether the newest board stands above what is said.
    BoardAbove(bool),
}

/// Whose numbers a word says: `own` or `server`.
pub fn read_numbers(word: &[u8]) -> Option<Numbers>
    ensures { result ≡ numbers_in word.now }
{
    if word == b"own".as_slice() {
        Some(Numbers::TheOwn)
    } else if word == b"server".as_slice() {
        Some(Numbers::TheServers)
    } else {
        None
    }
}

/// Whether a word says that the newest board stands above what is said, or scrolls with it below: `above` or `below`.
pub fn read_place(word: &[u8]) -> Option<bool>
    ensures { result ≡ place_in word.now }
{
    match word {
        b"above" => Some(true),
        b"below" => Some(false),
        _ => None,
    }
}

/// Whether a byte may be the letter of checkers. It must not be one that a picture has for something else.
fn is_letter(byte: u8) -> bool {
    match byte {
        b'+' | b'-' | b'|' | b'0'..=b'9' | b'B' | b'A' | b'R' => false,
        _ => byte.is_ascii_graphic(),
    }
}

/// The letters that two words are, if they can be told from each other and from what else a picture has.
fn letters_in(own: &[u8], other: &[u8]) -> Option<[u8; 2]> {
    match (own, other) {
        ([own], [other]) if own != other && is_letter(*own) && is_letter(*other) => {
            Some([*own, *other])
        }
        _ => None,
    }
}

/// The lines of fixed words, each with what it asks for.
const FIXED: [(&[u8], Setting<'static>); 14] = [
    (b"", Setting::Nothing),
    (b"quiet", Setting::Quiet),
    (b"arrivals", Setting::Arrivals),
    (b"words", Setting::Words(Telling::Long)),
    (b"words long", Setting::Words(Telling::Long)),
    (b"words short", Setting::Words(Telling::Short)),
    (b"no colour", Setting::NoColour),
    (b"no color", Setting::NoColour),
    (b"no bell", Setting::NoBell),
    (b"no title", Setting::NoTitle),
    (b"no record", Setting::NoRecord),
    (b"order roll", Setting::OrderRoll),
    (b"reconnect", Setting::Reconnect),
    (b"home above", Setting::HomeAbove),
];

/// What a line of fixed words asks for. None for any other line.
fn read_fixed(line: &[u8]) -> Option<Setting<'static>> {
    for (words, setting) in &FIXED {
        if *words == line {
            return Some(*setting);
        }
    }
    None
}

/// The letters of checkers, by what follows `letters`.
fn read_letters(words: &[u8]) -> Option<[u8; 2]> {
    let (own, other) = split(words, b' ');
    letters_in(own, other?)
}

/// What a line asks for, by its first word and by what follows it. None for any other line.
fn read_value<'a>(word: &[u8], rest: &'a [u8]) -> Option<Setting<'a>> {
    match word {
        b"gag" => Some(Setting::Gag(rest)),
        b"letters" => Some(Setting::Letters(read_letters(rest)?)),
        b"numbers" => Some(Setting::Numbers(read_numbers(rest)?)),
        b"board" => Some(Setting::BoardAbove(read_place(rest)?)),
        b"server" => is_place(rest).then_some(Setting::Nothing),
        b"log" => Some(Setting::Nothing),
        _ => None,
    }
}

/// What a line of the file asks for: `quiet`, `arrivals`, `gag NAME`, `words`, `words short`, `no colour`, `no bell`,
/// `no title`, `no record`, `order roll`, `reconnect`, `letters O X`, `home above`, `numbers own`, `numbers server`,
/// `board above` or `board below`; `server HOST PORT NAME` and `log FILE` are for who starts the program. None for any
/// other line.
pub fn read_setting(line: &[u8]) -> Option<Setting<'_>> {
    let line = line.trim_ascii();
    if line.starts_with(b"#") {
        return Some(Setting::Nothing);
    }
    if let Some(setting) = read_fixed(line) {
        return Some(setting);
    }
    let (word, rest) = split(line, b' ');
    read_value(word, rest?)
}

/// Whether a line says where to connect, and as whom: a host, a port, and a name.
fn is_place(words: &[u8]) -> bool {
    words
        .split(|byte| *byte == b' ')
        .filter(|word| !word.is_empty())
        .count()
        == 3
}

/// The path and the bytes of the file: none, if there is no file.
#[derive(Drop)]
pub struct Config {
    path: String,
    bytes: Vec<u8>,
    is_unread: bool,
}

/// What a variable says; empty if it is not there.
pub(crate) fn said(rt: &HostRuntime, name: &str) -> Result<String, AllocError> {
    match env::var(rt, name) {
        Ok(value) => Ok(value),
        Err(VarError::OutOfMemory) => Err(AllocError),
        Err(_) => Ok(String::new(rt.alloc())),
    }
}

/// The path of the file: what `FIBS_CONFIG` says; else in the folder that `XDG_CONFIG_HOME` names; else in that of the
/// user's home. Empty if there is none of them.
fn path_of(rt: &HostRuntime) -> Result<String, AllocError> {
    let path = said(rt, "FIBS_CONFIG")?;
    if !path.is_empty() {
        return Ok(path);
    }
    let mut path = said(rt, "XDG_CONFIG_HOME")?;
    if path.is_empty() {
        path = said(rt, "HOME")?;
        if path.is_empty() {
            return Ok(path);
        }
        path.push_str(IN_HOME)?;
    }
    path.push_str(IN_FOLDER)?;
    Ok(path)
}

/// The bytes of the file of a path, if it is there.
fn file_bytes(rt: &HostRuntime, path: &str) -> Result<Vec<u8>, io::Error> {
    let mut bytes = Vec::new(rt.alloc());
    if path.is_empty() || path.as_bytes() == NOTHING {
        return Ok(bytes);
    }
    // a pipe or another device might never end
    if !metadata(rt, path)?.is_file() {
        return Err(io::Error::from(ErrorKind::InvalidInput));
    }
    let mut file = File::open(rt, path)?.take(MOST_BYTES as u64 + 1);
    file.read_to_end(&mut bytes)?;
    if bytes.len() > MOST_BYTES {
        return Err(io::Error::from(ErrorKind::InvalidInput));
    }
    Ok(bytes)
}

/// Whether a file can't be opened since it is not there, or since what its path names as a folder is none.
pub(crate) fn is_not_there(kind: ErrorKind) -> bool {
    kind == ErrorKind::NotFound || kind == ErrorKind::NotADirectory
}

impl Config {
    /// Reads the file. It need not be there.
    ///
    /// Errors: if memory runs out.
    pub fn read(rt: &HostRuntime) -> Result<Config, AllocError> {
        let path = path_of(rt)?;
        match file_bytes(rt, path.as_str()) {
            Ok(bytes) => Ok(Config {
                path,
                bytes,
                is_unread: false,
            }),
            Err(error) if error.kind() == ErrorKind::OutOfMemory => Err(AllocError),
            Err(error) => Ok(Config {
                path,
                bytes: Vec::new(rt.alloc()),
                is_unread: !is_not_there(error.kind()),
            }),
        }
    }

    /// The path of the file; empty if nothing names one.
    pub fn path(&self) -> &[u8] {
        self.path.as_bytes()
    }

    /// Whether a line asks for the standing order to roll.
    pub fn orders_roll(&self) -> bool {
        for line in self.bytes.split(|byte| *byte == b'\n') {
            if let Some(Setting::OrderRoll) = read_setting(line) {
                return true;
            }
        }
        false
    }

    /// The bytes of the file, line by line.
    pub fn bytes(&self) -> &[u8] {
        self.bytes.as_slice()
    }

    /// Whether the file is there and can't be read: it is no file, or is longer than 64 KiB.
    pub fn is_unread(&self) -> bool {
        self.is_unread
    }
}
