//! What a terminal shows of what is reported to it.
ghost use Rattle.std.specs.Prelude.{◌≡◌, ◌≢◌, ◌++◌, ◌||◌, IfSome, OnOk, [], codes, false, length, true};
ghost use Rattle.std.specs.Str.{bytes_eq};
ghost use Rattle.fibs_commands.specs.TextOf.{text_of};
ghost use Rattle.fibs_fields.specs.Split.{before};
ghost use Rattle.fibs_game.specs.declared.refusal.Refusal.TheVariants.{IllegalPlay};
ghost use Rattle.fibs_advice.specs.Standings.{is_called, is_in_match};
ghost use Rattle.fibs_terminal.specs.Listed.{after_passed};
ghost use Rattle.fibs_terminal.specs.Noted.{NotesGame, NotesPassed, NotesSent, Opens};
ghost use Rattle.fibs_terminal.specs.Reasons.{asks_advice, of_board, reason_of};
ghost use Rattle.fibs_terminal.specs.Reported.{Hears, Notes, NotesEnd, refused};
ghost use Rattle.fibs_terminal.specs.Retold.{on_word, sent_row};
ghost use Rattle.fibs_terminal.specs.WatchedKept.{passed_watching};

use crate::account::is_free;
use crate::drawing::Watching;
use crate::own_rows::{fit_from, say_rows};
use crate::people::ListAsked;
use crate::screen::{Moment, Screen};
use fibs_advice::passing::Passing;
use fibs_advice::plays::Listing;
use fibs_advice::standing::Standing;
use fibs_connect::said::Said;
use fibs_fields::split::split;
use fibs_position::GameBoard;
use fibs_session::{CommandText, Outstanding, PlainRefusal, Refusal};
use fibs_wording::environment::Page;
use fibs_wording::environment::pieces::append_all;
use fibs_wording::lists::append_row;
use fibs_wording::reasons::{append_not_sent, append_reason, append_unnoted, refusal_words};
use itoa::Buffer;
use std::alloc::AllocError;
use std::io::ErrorKind;
use std::time::Duration;

// What is said of an order, of its end, and of a line that is unknown.

const ORDERED: &[u8] = b"ordered: the client rolls if you may not double\n";

const WITHDRAWN: &[u8] = b"withdrawn: you roll yourself\n";

/// What is said before a decision that was sent past the client.
const SENT_AGAIN: &[u8] = b"sent again: ";

const SENT_ON_WORD: &[u8] = b"sent on the server's word: ";

pub(crate) const UNKNOWN: &[u8] = b"unknown: help lists the words\n";

/// The server's word for the moves of a game.
const OLD_MOVES: &[u8] = b"oldmoves";

/// Shows the address of the server between these words.
fn say_place(before: &[u8], after: &[u8], page: &mut Page<'_>) -> Result<(), AllocError> {
    page.say(before)?;
    let mut buffer = Buffer::new();
    let port = buffer.format(page.settings.port).as_bytes();
    append_all(&[page.settings.host, b":", port, after], &mut page.text)
}

/// Says that no connection can be made, and why.
fn say_no_connection(why: ErrorKind, page: &mut Page<'_>) -> Result<(), AllocError> {
    say_place(b"no connection to ", b": ", page)?;
    if why == ErrorKind::NotFound {
        return page.say(b"no address is known");
    }
    let alloc = page.alloc;
    let reason = why.to_string(alloc)?;
    page.say(reason.as_bytes())
}

/// What is said of a refusal.
#[derive(Clone, Copy)]
enum Reason {
    /// The board of the match is still to come.
    ToCome,
    /// A text of the server has called for the decision, and no board.
    Unshown,
    /// The rule that it breaks.
    Rule,
    /// What is said of this refusal.
    Words(Refusal),
}

/// What is said if a refusal is of what the board allows.
fn reason_of_board(why: Refusal, has_rule: bool, standing: Standing) -> Reason
    ensures { result ≡ of_board why has_rule standing }
{
    if is_free(standing) {
        Reason::Words(Refusal::NoBoard)
    } else if has_rule {
        Reason::Rule
    } else {
        Reason::Words(why)
    }
}

/// What is said of a refusal: that the user is in no match; of a decision for which a text of the server has called,
/// that no board has; of a move or a double against the rules which rule it is.
fn reason_of(why: Refusal, has_rule: bool, standing: Standing) -> Reason
    ensures { result ≡ reason_of why has_rule standing }
{
    match why {
        Refusal::NoBoard if !is_free(standing) => Reason::ToCome,
        Refusal::NotYours if standing.is_told_by_text() => Reason::Unshown,
        Refusal::NotYours | Refusal::WrongKind | Refusal::IllegalPlay => {
            reason_of_board(why, has_rule, standing)
        }
        _ => Reason::Words(why),
    }
}

/// Its words.
fn words_of(why: Refusal, rule: &[u8], standing: Standing) -> &[u8]
    ensures { why ≡ IllegalPlay → is_in_match standing ≡ true → length rule.now ≢ 0 → result.now ≡ rule.now }
{
    match reason_of(why, !rule.is_empty(), standing) {
        Reason::ToCome => b"The board of your game has not come yet.",
        Reason::Unshown => b"No board shows it yet.",
        Reason::Rule => rule,
        Reason::Words(why) => refusal_words(why),
    }
}

/// Breaks the terminal's own words, from `start` on, so that they fit. What was heard of the server stays as it is.
fn fit_words(said: &Said<'_>, start: usize, page: &mut Page<'_>) -> Result<(), AllocError> {
    match said {
        Said::Heard(_, _, _) | Said::Game(_) => Ok(()),
        _ => fit_from(start, page),
    }
}

impl<'a> Screen<'a> {
    /// Hears one thing, and makes the text that is written for it.
    pub fn hear(&mut self, said: &Said<'_>, moment: Moment) -> Result<(), AllocError>
        ensures { OnOk result (Hears said.now moment.passed self.old.memory self.new.memory) }
    {
        let start = self.page.text.len();
        self.hear_said(said, moment)?;
        fit_words(said, start, &mut self.page)?;
        let game = self.memory.here.table.title.as_slice();
        self.memory.program.title.put(game, &mut self.page)
    }

    /// Has each thing heard by what it is.
    fn hear_said(&mut self, said: &Said<'_>, moment: Moment) -> Result<(), AllocError>
        ensures { OnOk result (Notes said.now moment.passed self.old.memory self.new.memory) }
    {
        match said {
            // its board is reported next
            Said::Heard(_, _, Some(_)) => Ok(()),
            Said::Heard(line, reading, None) => self.hear_line(line, reading, moment),
            Said::Game(game) => self.hear_game(game),
            Said::Opened => self.hear_opened(moment),
            Said::NoConnection(why) => {
                say_no_connection(*why, &mut self.page)?;
                self.say_next_try()
            }
            Said::Confirmed(_) => {
                self.memory.here.situation.hear_confirmed();
                Ok(())
            }
            Said::Lost(waited) => self.hear_lost(waited, moment),
            Said::Unnoted(why) => append_unnoted(*why, &mut self.page.text),
            Said::Player(player) => append_row(player, &mut self.page.text),
            Said::Sent(command) => self.hear_sent(command),
            Said::Passed(line) => self.say_passed(line),
            Said::Refused(why) => self.say_refused(*why),
            Said::NotSent(why) => self.say_not_sent(*why),
            Said::Rolled => {
                let _decides = self.memory.here.situation.hear_sent(b"roll");
                self.page.say(b"sent roll, as ordered\n")
            }
            Said::Ordered => self.page.say(ORDERED),
            Said::Withdrawn => self.page.say(WITHDRAWN),
            Said::Unknown => self.page.say(UNKNOWN),
        }
    }

    /// Hears a board of the user's game.
    fn hear_game(&mut self, game: &GameBoard) -> Result<(), AllocError>
        ensures { OnOk result (NotesGame self.old.memory game.now self.new.memory) }
    {
        let alloc = self.page.alloc;
        self.note_score(game.board());
        let converses = self.memory.program.converses;
        let here = &mut self.memory.here;
        here.advising.says_again = true;
        if here.situation.asks_board() {
            here.advising.inquired = true;
        }
        let asked = here.situation.awaits_board();
        here.situation.hear_board(game);
        here.direction = Some(game.direction());
        here.greeting.hear_board();
        self.say_greeting()?;
        let above = &mut self.memory.program.above;
        let here = &mut self.memory.here;
        // its moves are listed from the first on
        here.looking.plays = Listing::of_all();
        here.watching = Watching::new();
        here.table.meet(alloc, game.board().opponent().bytes());
        let numbers = self.page.settings.numbers;
        let mut rows = Vec::new(alloc);
        let _hits = here
            .table
            .story
            .append_hits(alloc, game, numbers, &mut rows)?;
        say_rows(rows.as_slice(), &mut self.page)?;
        here.table.story.hear_board(alloc, game)?;
        if converses {
            here.table.hear_title(game)?;
        }
        let said = here.said.as_slice();
        here.advising.is_told = here
            .table
            .boards
            .show(game, asked, converses, said, above, &mut self.page)?;
        here.said = Vec::new(alloc);
        Ok(())
    }

    /// Says why a plain command was not sent.
    fn say_not_sent(&mut self, why: PlainRefusal) -> Result<(), AllocError>
        ensures { self.new.memory ≡ record self.old.memory {
          here = record self.old.memory.here {
            advising = record self.old.memory.here.advising {
              inquired = asks_advice why || self.old.memory.here.advising.inquired;
            };
          };
        } }
    {
        if why == PlainRefusal::NotOn {
            self.memory.here.advising.inquired = true;
        }
        append_not_sent(why, &mut self.page.text)
    }

    /// A connection was made.
    fn hear_opened(&mut self, moment: Moment) -> Result<(), AllocError>
        ensures { Opens self.old.memory moment.passed self.new.memory }
    {
        let alloc = self.page.alloc;
        self.memory.change_connection(alloc, moment.passed);
        self.memory.program.converses = true;
        self.memory.program.reconnecting.hear_opened();
        say_place(b"connected to ", b"\n", &mut self.page)
    }

    /// A command was sent: it is shown in full.
    fn hear_sent(&mut self, command: &CommandText) -> Result<(), AllocError>
        ensures notes { NotesSent self.old.memory (text_of command.now) self.new.memory }
        ensures says { OnOk result (self.new.page.text.items ≡ self.old.page.text.items ++ sent_row
            self.old.page.settings self.old.memory.here.direction (codes "sent ") (text_of command.now) []) }
    {
        let bytes = command.as_bytes();
        self.memory.program.reconnecting.hear_sent(bytes);
        let here = &mut self.memory.here;
        here.toggles.hear_sent(bytes);
        here.lists_moves = false;
        if here.situation.hear_sent(bytes) {
            here.advising.says_again = true;
        }
        if bytes == b"who".as_slice() {
            here.list.asked = ListAsked::Everybody;
        }
        self.say_sent(b"sent ", bytes, b"")
    }

    /// Says that a line went past the client: as it is, or a decision for which the server has asked.
    fn say_passed(&mut self, line: &[u8]) -> Result<(), AllocError>
        ensures notes { NotesPassed self.old.memory line.now self.new.memory }
        ensures says { OnOk result (IfSome (on_word self.old.memory.here.passing) (λ words.
            self.new.page.text.items ≡ self.old.page.text.items ++ sent_row
            self.old.page.settings self.old.memory.here.direction words line.now [])) }
    {
        self.memory.program.reconnecting.hear_sent(line);
        self.memory.here.advising.says_again = true;
        match self.memory.here.passing {
            Passing::Again => self.say_on_word(SENT_AGAIN, line),
            Passing::OnWord => self.say_on_word(SENT_ON_WORD, line),
            Passing::Asks | Passing::Forbidden(_) => self.note_passed_line(line),
        }
    }

    /// Says that a decision was sent on the server's word.
    fn say_on_word(&mut self, how: &[u8], line: &[u8]) -> Result<(), AllocError>
        ensures called { is_called self.new.memory.here.situation.standing ≡ false }
        ensures memory { self.new.memory ≡ record self.old.memory {
          here = record self.old.memory.here {
            situation = self.new.memory.here.situation;
            lists_moves = false;
          };
        } }
        ensures says { OnOk result (self.new.page.text.items ≡ self.old.page.text.items ++ sent_row
            self.old.page.settings self.old.memory.here.direction how.now line.now []) }
    {
        self.memory.here.lists_moves = false;
        self.memory.here.situation.hear_on_word();
        self.say_sent(how, line, b"")
    }

    /// Takes note of a line that was sent as it is, and says so.
    fn note_passed_line(&mut self, line: &[u8]) -> Result<(), AllocError>
        ensures moves { self.new.memory.here.lists_moves ≡ bytes_eq (before 32 line.now) (codes "oldmoves") }
        ensures watching { self.new.memory.here.watching ≡ passed_watching line.now self.old.memory.here.watching }
        ensures list { self.new.memory.here.list.asked ≡ after_passed line.now self.old.memory.here.list.asked }
        ensures memory { self.new.memory ≡ record self.old.memory {
          here = record self.old.memory.here {
            situation = self.new.memory.here.situation;
            toggles = self.new.memory.here.toggles;
            watching = self.new.memory.here.watching;
            list = self.new.memory.here.list;
            lists_moves = self.new.memory.here.lists_moves;
          };
        } }
    {
        let here = &mut self.memory.here;
        here.toggles.hear_sent(line);
        here.situation.hear_passed(line);
        here.watching.hear_passed(line);
        here.list.hear_passed(line);
        here.lists_moves = split(line, b' ').0 == OLD_MOVES;
        self.page.say(b"sent as it is: ")?;
        self.page.show_row(line)
    }

    /// Says why a decision was refused: of a move against the rules which rule it is. What is advised follows.
    pub(crate) fn say_refused(&mut self, why: Refusal) -> Result<(), AllocError>
        ensures { self.new.memory ≡ refused self.old.memory }
    {
        self.memory.here.advising.inquired = true;
        let standing = self.memory.here.situation.standing;
        let words = words_of(why, self.memory.here.rule.as_slice(), standing);
        let alloc = self.page.alloc;
        let mut row = Vec::new(alloc);
        append_reason(words, why.number(), why, &mut row)?;
        say_rows(row.as_slice(), &mut self.page)
    }

    /// The connection is over.
    fn hear_lost(&mut self, waited: &Option<Outstanding>, moment: Moment) -> Result<(), AllocError>
        ensures { OnOk result (NotesEnd self.old.memory moment.passed self.new.memory) }
    {
        self.page.ring()?;
        if let Some(asked) = waited {
            let command = asked.command();
            self.say_sent(
                b"",
                command.as_bytes(),
                b" may have reached the server or not",
            )?;
        }
        self.say_lost(moment)?;
        let alloc = self.page.alloc;
        self.memory.change_connection(alloc, Duration::from_secs(0));
        Ok(())
    }
}
