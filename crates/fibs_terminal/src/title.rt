//! The title of the window in which the terminal is.
ghost use Rattle.std.specs.Prelude.{◌≡◌, [], OnOk};
ghost use Rattle.fibs_terminal.specs.TitleWords.{PutsTitle, put_back, title_words};

use fibs_wording::environment::Page;
use std::alloc::{AllocError, Global};

/// What the title says if no game is shown.
const NO_GAME: &[u8] = b"fibs";

/// What keeps the old title, and what puts it back (xterm's control sequences).
const KEEP: &[u8] = b"\x1b[22;0t";

const PUT_BACK: &[u8] = b"\x1b[23;0t";

/// What comes before a title, and after it.
const BEGINS: &[u8] = b"\x1b]2;";

const ENDS: &[u8] = b"\x1b\\";

/// The title of the window.
#[derive(Drop)]
pub struct Title {
    /// What it says; empty if it is as it was before the program.
    shown: Vec<u8>,
}

impl Title {
    /// It is as it was.
    pub fn new(alloc: Global) -> Title
        ensures { result.shown.items ≡ [] }
    {
        Title {
            shown: Vec::new(alloc),
        }
    }

    /// Puts what the game says there, or that there is no game if one was told before.
    pub fn put(&mut self, game: &[u8], page: &mut Page<'_>) -> Result<(), AllocError>
        ensures { OnOk result (PutsTitle (title_words self.old.shown.items game.now)
            page.old.text.items page.new.text.items) }
    {
        if game.is_empty() && !self.shown.is_empty() {
            self.put_words(NO_GAME, page)
        } else {
            self.put_words(game, page)
        }
    }

    /// Puts a new title before what is written next, if anything is: so it never stands in a row of its own. Nothing if
    /// the window has no title.
    fn put_words(&mut self, words: &[u8], page: &mut Page<'_>) -> Result<(), AllocError>
        ensures { OnOk result (PutsTitle words.now page.old.text.items page.new.text.items) }
    {
        if !page.settings.title || page.text.is_empty() || words == self.shown.as_slice() {
            return Ok(());
        }
        let alloc = page.alloc;
        let mut text = Vec::new(alloc);
        if self.shown.is_empty() {
            text.extend_from_slice(KEEP)?;
        }
        text.extend_from_slice(BEGINS)?;
        text.extend_from_slice(words)?;
        text.extend_from_slice(ENDS)?;
        text.extend_from_slice(page.text.as_slice())?;
        page.text = text;
        self.shown.clear();
        self.shown.extend_from_slice(words)
    }

    /// What puts the old title back; nothing if it is as it was.
    pub fn put_back(&mut self) -> &'static [u8]
        ensures text { result.now ≡ put_back self.old.shown.items }
        ensures shown { self.new.shown.items ≡ [] }
    {
        if self.shown.is_empty() {
            return b"";
        }
        self.shown.clear();
        PUT_BACK
    }
}
