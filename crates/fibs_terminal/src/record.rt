//! The record: a line for each match of the user that has ended, in a file.
ghost use Rattle.std.specs.Prelude.{◌≡◌, ◌≢◌, ◌⊎◌, ◌≤◌, length, None, OnOk, Option, Some, false, option_map, true};
ghost use Rattle.fibs_events.specs.declared.told.Told.TheVariants as T;
ghost use Rattle.fibs_fields.specs.StoredBoard.{fields_of};
ghost use Rattle.fibs_terminal.specs.Ended.{rated_by, score_of, unrated_after};
ghost use Rattle.fibs_wording.specs.declared.matches.Score.{Score};
ghost use Rattle.fibs_terminal.specs.Recording.{AppendsLine, EndsMatch, IsRematch, SaysTroubleOnce, with_ended, with_results};

use crate::own_rows::fit_from;
use crate::rematch::Rematch;
use crate::results::{Ended, Rated, Results, score_on};
use crate::screen::{Moment, Screen};
use crate::terminal::Terminal;
use fibs_advice::standing::Standing;
use fibs_connect::fault::FrontFault;
use fibs_engine::noting::{Trouble, write_trouble};
use fibs_engine::writing::write_bytes;
use fibs_events::told::Told;
use fibs_fields::boards::Board;
use fibs_fields::trailing_spaces::without_spaces;
use fibs_wording::dates::append_stamp;
use fibs_wording::environment::{Page, RecordFile};
use fibs_wording::matches::{PlayedMatch, Score, append_line, append_matches, read_ending};
use fibs_wording::rated::append_rated;
use std::alloc::AllocError;
use std::io;
use std::io::{ErrorKind, Write};
use std::time::Clock;

/// What is said of the file before the reason for which it can't be written or read.
const UNWRITTEN: &[u8] = b"the record can't be written";

const UNREAD: &[u8] = b"the record can't be read";

/// What is said if there is no file to list.
const NONE_KEPT: &[u8] = b"No record of matches is kept here.\n";

/// The record of a terminal.
#[derive(Drop)]
pub struct Record<'a> {
    /// Its file, if one is kept.
    file: Option<RecordFile<'a>>,
    /// The user's own settings ask for none.
    pub is_off: bool,
    /// It was said that it can't be written.
    is_told: bool,
}

impl<'a> Record<'a> {
    /// None is kept.
    pub fn new() -> Record<'a>
        ensures file { result.file ≡ None }
        ensures on { result.is_off ≡ false }
        ensures told { result.is_told ≡ false }
    {
        Record {
            file: None,
            is_off: false,
            is_told: false,
        }
    }

    /// Appends a line, if a record is kept. The first time that it can't be written that is said.
    fn append(&mut self, line: &[u8], page: &mut Page<'_>) -> Result<(), AllocError>
        ensures kept { self.new ≡ record self.old { is_told = self.new.is_told } }
        ensures none { self.old.file ≡ None → (self.new ≡ self.old) × (page.new ≡ page.old) }
        ensures off { self.old.is_off ≡ true → (self.new ≡ self.old) × (page.new ≡ page.old) }
        ensures trouble { SaysTroubleOnce self.old.is_told page.old.text.items self.new.is_told page.new.text.items }
    {
        let answer = match &self.file {
            Some(file) if !self.is_off => file.append(line),
            _ => return Ok(()),
        };
        match answer {
            Ok(()) => Ok(()),
            Err(error) if self.is_told => unless_memory_ran_out(&error),
            Err(error) => {
                unless_memory_ran_out(&error)?;
                self.is_told = true;
                say_trouble(UNWRITTEN, &error, page)
            }
        }
    }
}

/// Whether it failed for another reason than memory.
fn unless_memory_ran_out(error: &io::Error) -> Result<(), AllocError> {
    if error.kind() == ErrorKind::OutOfMemory {
        Err(AllocError)
    } else {
        Ok(())
    }
}

/// Says what failed, and why.
fn say_trouble(what: &[u8], error: &io::Error, page: &mut Page<'_>) -> Result<(), AllocError>
    requires { length what.now ≤ 32 }
{
    let start = page.text.len();
    let trouble = Some(Trouble::of(error));
    write_trouble(what, trouble, &mut page.text).map_err(|_| AllocError)?;
    fit_from(start, page)
}

/// The rating, if it is known.
fn rating_of(rated: Option<Rated>) -> Option<u32>
    ensures { result ≡ option_map (λ rated. rated.rating) rated }
{
    match rated {
        None => None,
        Some(rated) => Some(rated.rating),
    }
}

/// The experience, if it is known.
fn experience_of(rated: Option<Rated>) -> Option<u64>
    ensures { result ≡ option_map (λ rated. rated.experience) rated }
{
    match rated {
        None => None,
        Some(rated) => Some(rated.experience),
    }
}

/// How another match is played after the one that has ended last, if one has.
fn rematch_of(results: &Results) -> Option<Rematch>
    ensures { IsRematch results.now.ended result }
{
    match results.unrated() {
        None => None,
        Some(ended) => Some(Rematch::after(ended)),
    }
}

/// Appends the line of a match that has ended with a score, after which the user is rated so, if that is known.
fn append_ended(
    ended: &Ended,
    now: Option<Rated>,
    page: &Page<'_>,
    text: &mut Vec<u8>,
) -> Result<(), AllocError>
    ensures { OnOk result (AppendsLine ended.now now text.old.items text.new.items) }
{
    let Some(score) = ended.score else {
        return Ok(());
    };
    if ended.opponent.is_empty() {
        return Ok(());
    }
    let alloc = page.alloc;
    let mut date = Vec::new(alloc);
    append_stamp(ended.time, &page.settings.zone, &mut date)?;
    let played = PlayedMatch {
        date: date.as_slice(),
        opponent: ended.opponent.as_slice(),
        score,
        before: rating_of(ended.before),
        after: rating_of(now),
        experience: experience_of(now),
    };
    append_line(&played, text)
}

impl<'a> Screen<'a> {
    /// Keeps a match that has ended, after which the user is rated so, if that is known.
    fn keep_match(&mut self, ended: &Ended, now: Option<Rated>) -> Result<(), AllocError>
        ensures memory { self.new.memory ≡ self.old.memory }
        ensures file { self.new.«record» ≡ record self.old.«record» { is_told = self.new.«record».is_told } }
        ensures off { self.old.«record».is_off ≡ true → self.new ≡ self.old }
        ensures unknown { ended.now.score ≡ None → self.new ≡ self.old }
        ensures trouble { SaysTroubleOnce self.old.«record».is_told self.old.page.text.items
            self.new.«record».is_told self.new.page.text.items }
    {
        let alloc = self.page.alloc;
        let mut line = Vec::new(alloc);
        append_ended(ended, now, &self.page, &mut line)?;
        if line.is_empty() {
            return Ok(());
        }
        self.record.append(line.as_slice(), &mut self.page)
    }

    /// Takes note of what a text says of the user's match, before which he waited for this: whether a game begins, or
    /// his match has ended.
    pub(crate) fn note_result(
        &mut self,
        said: &[u8],
        told: Option<Told>,
        before: Standing,
        moment: Moment,
    ) -> Result<(), AllocError>
        ensures begins { (told ≡ Some T.Begins) ⊎ (told ≡ Some T.Resumes) → self.new.memory
            ≡ with_results self.old.memory (record self.old.memory.program.results { board = None }) }
        ensures other { told ≢ Some T.Begins → told ≢ Some T.Resumes → told ≢ Some T.MatchOver → self.new ≡ self.old }
        ensures same { told ≡ Some T.MatchOver → self.old.memory.here.situation.standing ≡ before →
            self.new ≡ self.old }
        ensures over { told ≡ Some T.MatchOver → (self.new ≡ self.old)
            ⊎ ((score : Option Score) × EndsMatch self.old.memory score moment.time self.new.memory) }
        ensures kept { self.new.memory ≡ with_ended self.old.memory self.new.memory }
    {
        match told {
            Some(Told::Begins | Told::Resumes) => self.memory.program.results.begin_game(),
            Some(Told::MatchOver) if self.memory.here.situation.standing != before => {
                return self.end_match(said, moment);
            }
            _ => {}
        }
        Ok(())
    }

    /// The user's match has ended, unless a text says that of others.
    fn end_match(&mut self, said: &[u8], moment: Moment) -> Result<(), AllocError>
        ensures ends { (self.new ≡ self.old)
            ⊎ ((score : Option Score) × EndsMatch self.old.memory score moment.time self.new.memory) }
        ensures kept { self.new.memory ≡ with_ended self.old.memory self.new.memory }
    {
        let opponent = self.memory.here.table.opponent.as_slice();
        let Some(ending) = read_ending(without_spaces(said), opponent) else {
            return Ok(());
        };
        self.end_with(ending.score, moment)
    }

    /// The user's match has ended, by a text that may say the score.
    fn end_with(&mut self, score: Option<Score>, moment: Moment) -> Result<(), AllocError>
        ensures ends { EndsMatch self.old.memory score moment.time self.new.memory }
        ensures kept { self.new.memory ≡ with_ended self.old.memory self.new.memory }
    {
        let opponent = self.memory.here.table.opponent.as_slice();
        let results = &mut self.memory.program.results;
        let before = results.end_match(opponent, score, moment.time);
        self.memory.here.rematch = rematch_of(results);
        match before {
            None => Ok(()),
            Some(unrated) => self.keep_match(&unrated, None),
        }
    }

    /// Takes note of a board of the user's game.
    pub(crate) fn note_score(&mut self, board: &Board)
        ensures here { self.new.memory.here ≡ self.old.memory.here }
        ensures memory { self.new.memory ≡ with_results self.old.memory
            (record self.old.memory.program.results { board = score_of (fields_of board.now) }) }
        ensures page { self.new.page ≡ self.old.page }
        ensures file { self.new.«record» ≡ self.old.«record» }
    {
        self.memory.program.results.hear_board(score_on(board));
    }

    /// The server rates the user so. If a match has ended since, its rating is said, and its line is kept.
    pub(crate) fn hear_rated(&mut self, now: Rated) -> Result<(), AllocError>
        ensures memory { self.new.memory ≡ with_results self.old.memory (record self.old.memory.program.results {
          rated = Some now;
          ended = unrated_after self.old.memory.program.results.ended now;
        }) }
        ensures silent { rated_by self.old.memory.program.results.ended now ≡ None →
            (self.new.page ≡ self.old.page) × (self.new.«record» ≡ self.old.«record») }
    {
        let Some(ended) = self.memory.program.results.rate(now) else {
            return Ok(());
        };
        if let Some(before) = ended.before {
            let start = self.page.text.len();
            append_rated(
                before.rating,
                now.rating,
                now.experience,
                &mut self.page.text,
            )?;
            fit_from(start, &mut self.page)?;
        }
        self.keep_match(&ended, Some(now))
    }

    /// Nothing more is heard: a match that waits for its rating is kept without it.
    fn keep_unrated(&mut self) -> Result<(), AllocError>
        ensures memory { self.new.memory ≡ with_results self.old.memory
            (record self.old.memory.program.results { ended = None }) }
        ensures none { self.old.memory.program.results.ended ≡ None → self.new ≡ self.old }
    {
        match self.memory.program.results.take_unrated() {
            None => Ok(()),
            Some(ended) => self.keep_match(&ended, None),
        }
    }

    /// Lists the last matches of the record, or the last of those with a player. One that waits for its rating is the
    /// last.
    pub(crate) fn say_matches(&mut self, name: &[u8]) -> Result<(), AllocError>
        ensures { self.new.memory ≡ self.old.memory }
    {
        let alloc = self.page.alloc;
        let mut text = Vec::new(alloc);
        let Some(file) = &self.record.file else {
            return self.page.say(NONE_KEPT);
        };
        if let Err(error) = file.read(&mut text) {
            unless_memory_ran_out(&error)?;
            return say_trouble(UNREAD, &error, &mut self.page);
        }
        if let Some(ended) = self.memory.program.results.unrated() {
            if !self.record.is_off {
                text.push(b'\n')?;
                append_ended(ended, None, &self.page, &mut text)?;
            }
        }
        append_matches(alloc, text.as_slice(), name, &mut self.page.text)
    }
}

impl<'a, W: Write + Drop, C: Clock + Drop> Terminal<'a, W, C> {
    /// Keeps a record in a file from now on, unless the user's own settings ask for none.
    pub fn keep_record(&mut self, file: RecordFile<'a>)
        ensures { self.new ≡ record self.old {
          screen = record self.old.screen { «record» = record self.old.screen.«record» { file = Some file.entry } };
        } }
    {
        self.screen.record.file = Some(file);
    }

    /// Keeps what is still to be kept: nothing more is heard.
    ///
    /// Errors: `Output` if a write fails, or memory runs out (`is_out_of_memory`).
    pub fn end_record(&mut self) -> Result<(), FrontFault>
        ensures { self.new.screen.memory ≡ with_results self.old.screen.memory
            (record self.old.screen.memory.program.results { ended = None }) }
    {
        self.screen.page.text.clear();
        if self.screen.keep_unrated().is_err() {
            self.screen.ran_out = true;
            return Err(FrontFault::Output);
        }
        write_bytes(self.screen.page.text.as_slice(), &mut self.out)?;
        Ok(())
    }
}
