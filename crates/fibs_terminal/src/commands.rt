//! What a line that is typed at a terminal asks for.
ghost use Rattle.std.specs.Prelude.{◌≡◌, ◌≤◌, ◌↔◌, length, codes, true, false, is_some, Some, None, IfOk, IfSome, IsTrue, OnOk};
ghost use Rattle.fibs_connect.specs.Wishes.{wish_value};
ghost use Rattle.fibs_session.specs.Calls.Standing.{StandsAfter};
ghost use Rattle.fibs_session.specs.History.Machine.{Talk};
ghost use Rattle.fibs_session.specs.Typing.{IsMeant, decided, is_command, typed_by, typed_decision, typed_now};
ghost use Rattle.fibs_position.specs.DecisionValue.{decision_of, move};
ghost use Rattle.fibs_rules.specs.PlayValue.{hops_of};
ghost use Rattle.fibs_terminal.specs.Asking.{AsksInBounds, IsTakenAs, IsTakenOrGoes, KnownGoesOn, SendsUntaken, ShownGoesOn, TakesPlay};
ghost use Rattle.fibs_terminal.specs.Leaving.{NeverQuits, Quits, QuitsBy};
ghost use Rattle.fibs_terminal.specs.OwnWords.{IsOwn, name_of, own_name};
ghost use Rattle.fibs_terminal.specs.Respelling.{IsPassedAs, Respells};
ghost use Rattle.fibs_terminal.specs.Sending.{SendsNoDecision, SendsOnWord, WentOnWord, says_send};
ghost use Rattle.fibs_fields.specs.Split.{before};
ghost use Rattle.fibs_terminal.specs.declared.commands.Here.{Here as TheHere};
ghost use Rattle.fibs_terminal.specs.declared.commands.Own.{Own as TheOwn};
ghost use Rattle.fibs_terminal.specs.Configured.{numbers_after};
ghost use Rattle.fibs_terminal.specs.Trying.{AnswersTry, GoesOn, KeepsUnanswered, ShowsTry, Tries, TriesOrKeeps};
ghost use Rattle.fibs_terminal.specs.TypedMoves.{AfterTry, IsTriedAs, KeepsTyped, NotesRule, TriesTyped, after_word};

mod shown;
mod unknown;

use crate::account::is_free;
use crate::commands::shown::{say_board, say_fact};
use crate::commands::unknown::say_unknown;
use crate::looking::{TRY_WHAT, trial_of};
use crate::own_rows::{fit_from, is_narrow, say_rows};
use crate::screen::Screen;
use crate::sending::{after_send, decision_typed, send};
use crate::story::Story;
use crate::talk::goes_as_typed;
use bstr::ByteSlice;
use fibs_advice::passing::Passing;
use fibs_advice::rules::append_rule;
use fibs_advice::spelling::meant_moves::{shown_move, way_now};
use fibs_advice::spelling::words::{append_small_word, append_spelled};
use fibs_connect::typed_line::{TYPED_LIMIT, TypedLine};
use fibs_connect::wish::Wish;
use fibs_fields::split::split;
use fibs_fields::trailing_spaces::without_spaces;
use fibs_picture::in_words::Fact;
use fibs_position::laws::decisions_are_valid;
use fibs_position::{Decision, Numbers, Play};
use fibs_session::laws::shown_is_read;
use fibs_session::typed::meant::{is_command_by, meant_command, read_typed_by};
use fibs_session::typed::taking::would_take;
use fibs_session::typed::typing::Typed;
use fibs_session::{Client, Directory, Refusal, decision_text};
use fibs_wording::environment::{Page, read_numbers};
use fibs_wording::help;
use fibs_wording::server_words::is_passed;
pub(crate) use shown::say_no_game;
use std::alloc::{AllocError, Global};

/// A word of the terminal, which the client does not know.
#[derive(Clone, Copy)]
enum Own {
    /// It is answered here.
    Here(Here),
    Re,
    Try,
    Go,
}

/// A word that the terminal answers, and for which nothing is sent.
#[derive(Clone, Copy)]
enum Here {
    Help,
    Plays,
    Words,
    Players,
    Gag,
    Ungag,
    Quiet,
    Loud,
    Arrivals,
    Talk,
    Moves,
    Matches,
    Reconnect,
    Stay,
    Fix,
    Columns,
    Rows,
    Board,
    Numbers,
}

/// What is said if `moves` is followed by another word.
const WHICH_MOVES: &[u8] = b"moves, or moves all.\n";

/// What is said if `numbers` is not followed by whose they are, and what after it.
const WHICH_NUMBERS: &[u8] =
    b"numbers own: places from 24 down to 1. numbers server: as it counts them.\n";

const OWN_NUMBERS: &[u8] = b"Places have your own numbers now: you go from 24 down to 1.\n";

const SERVERS_NUMBERS: &[u8] = b"Places have the server's numbers now.\n";

/// What is said if `words` is followed by another word, and what after those that change how boards are told.
const WHICH_WORDS: &[u8] = b"words, words score, words cube, words short, or words long.\n";

const SHORT_WORDS: &[u8] =
    b"In words, what is as it was before is left out now. words tells all of it.\n";

const LONG_WORDS: &[u8] = b"In words, each board is told whole now.\n";

/// The words of the terminal that ask for nothing of the conversation, each with what it asks for.
const HERE: [(&[u8], Here); 19] = [
    (b"help", Here::Help),
    (b"plays", Here::Plays),
    (b"words", Here::Words),
    (b"players", Here::Players),
    (b"gag", Here::Gag),
    (b"ungag", Here::Ungag),
    (b"quiet", Here::Quiet),
    (b"loud", Here::Loud),
    (b"arrivals", Here::Arrivals),
    (b"talk", Here::Talk),
    (b"moves", Here::Moves),
    (b"matches", Here::Matches),
    (b"reconnect", Here::Reconnect),
    (b"stay", Here::Stay),
    (b"fix", Here::Fix),
    (b"columns", Here::Columns),
    (b"rows", Here::Rows),
    (b"board", Here::Board),
    (b"numbers", Here::Numbers),
];

/// What one of these words asks for.
fn here_word(word: &[u8]) -> Option<Here>
    ensures found { IfSome result (λ here. word.now ≡ name_of here) }
    ensures all { (here : TheHere) → word.now ≡ name_of here → result ≡ Some here }
{
    for (name, here) in &HERE {
        if *name == word {
            return Some(*here);
        }
    }
    None
}

/// The word of the terminal that a word is, if it is one.
fn own_word(word: &[u8]) -> Option<Own>
    ensures go { word.now ≡ codes "go" → result ≡ Some Own.Go }
    ensures tries { word.now ≡ codes "try" → result ≡ Some Own.Try }
    ensures found { IfSome result (λ own. word.now ≡ own_name own) }
    ensures all { (own : TheOwn) → word.now ≡ own_name own → result ≡ Some own }
{
    if word == b"re".as_slice() {
        return Some(Own::Re);
    }
    if word == b"try".as_slice() {
        return Some(Own::Try);
    }
    if word == b"go".as_slice() {
        return Some(Own::Go);
    }
    match here_word(word) {
        Some(here) => Some(Own::Here(here)),
        None => None,
    }
}

/// Whether a line is a word of the conversation, or begins with a word of the terminal.
fn is_own(line: &[u8]) -> bool
    ensures quit { line.now ≡ codes "quit" → result ≡ true }
    ensures go { line.now ≡ codes "go" → result ≡ true }
    ensures tries { before 32 line.now ≡ codes "try" → result ≡ true }
    ensures own { IsTrue result ↔ IsOwn line.now }
{
    line == b"quit".as_slice()
        || line == b"open".as_slice()
        || own_word(split(line, b' ').0).is_some()
}

/// What follows a word.
fn after_word(line: &[u8]) -> &[u8]
    ensures { result.now ≡ after_word line.now }
{
    match split(line, b' ').1 {
        Some(rest) => rest,
        None => b"",
    }
}

/// Makes a line of bytes for which there is room.
pub(crate) fn set_line(line: &mut TypedLine, bytes: &[u8])
    ensures { length bytes.now ≤ 4098 → line.new.items ≡ bytes.now }
{
    line.clear();
    let _fits = line.try_extend_from_slice(bytes);
}

/// Has in place of a decision in these numbers its command in the server's, as the client reads it. Any other line
/// stays.
fn set_meant(client: &Client, numbers: Numbers, line: &mut TypedLine)
    ensures { (t : Talk) → StandsAfter client.now t → IsMeant numbers t line.old.items line.new.items }
{
    match meant_command(client, numbers, line.as_slice()) {
        None => {}
        Some(command) => set_line(line, command.as_str().as_bytes()),
    }
}

/// Has in a line the command of a move, by the numbers that the user reads.
fn set_shown(client: &Client, numbers: Numbers, play: &Play, line: &mut TypedLine)
    ensures { (t : Talk) → StandsAfter client.now t →
        typed_by numbers t line.new.items ≡ typed_decision (move (hops_of play.now)) }
{
    // Laws, which cost nothing when they run.
    shown_is_read();
    decisions_are_valid();
    let command = decision_text(&Decision::Move(*play), way_now(client, numbers));
    set_line(line, command.as_str().as_bytes());
}

/// Respells a line, if it then is a command by these numbers, or if it then begins with a word of the terminal.
fn spell(
    alloc: Global,
    client: &Client,
    numbers: Numbers,
    line: &mut TypedLine,
) -> Result<(), AllocError>
    ensures quit { line.old.items ≡ codes "quit" → line.new.items ≡ line.old.items }
    ensures go { line.old.items ≡ codes "go" → line.new.items ≡ line.old.items }
    ensures tries { before 32 line.old.items ≡ codes "try" → line.new.items ≡ line.old.items }
    ensures spelled { OnOk result (Respells client.now numbers line.old.items line.new.items) }
{
    if is_own(line.as_slice()) {
        return Ok(());
    }
    let mut spelled = Vec::new(alloc);
    append_spelled(alloc, client, numbers, line.as_slice(), &mut spelled)?;
    if is_command_by(client, numbers, spelled.as_slice()) || is_own(spelled.as_slice()) {
        set_line(line, spelled.as_slice());
        return Ok(());
    }
    spell_passed(alloc, line, spelled.as_slice())
}

/// Respells a line if it then goes to the server as it is: with its first word in small letters, or spelled so.
fn spell_passed(alloc: Global, line: &mut TypedLine, spelled: &[u8]) -> Result<(), AllocError>
    ensures { OnOk result (IsPassedAs spelled.now line.old.items line.new.items) }
{
    if is_passed(line.as_slice()) {
        return Ok(());
    }
    let mut small = Vec::new(alloc);
    append_small_word(alloc, line.as_slice(), &mut small)?;
    if is_passed(small.as_slice()) {
        set_line(line, small.as_slice());
    } else if is_passed(spelled) {
        set_line(line, spelled);
    }
    Ok(())
}

/// Keeps which rule a move breaks, if the line is a move against the rules. None is kept of a line before.
fn note_rule(
    client: &Client,
    numbers: Numbers,
    line: &[u8],
    rule: &mut Vec<u8>,
) -> Result<(), AllocError>
    ensures { OnOk result ((t : Talk) → StandsAfter client.now t →
        NotesRule t numbers line.now rule.old.items rule.new.items) }
{
    let Typed::Decision(decision) = read_typed_by(client, numbers, line) else {
        return Ok(());
    };
    let Decision::Move(play) = decision else {
        return Ok(());
    };
    if client.refusal(&decision) != Some(Refusal::IllegalPlay) {
        return Ok(());
    }
    match client.game() {
        None => Ok(()),
        Some(game) => append_rule(game, numbers, &play, rule),
    }
}

/// The decision that is spelled by what follows `try`, if it is one. Keeps which rule it breaks.
fn read_move(
    alloc: Global,
    client: &Client,
    numbers: Numbers,
    rest: &[u8],
    rule: &mut Vec<u8>,
) -> Result<Option<Decision>, AllocError>
    ensures { IfOk result (λ read. IfSome read (λ decision. (t : Talk) → StandsAfter client.now t →
        IsTriedAs t numbers rest.now (decision_of decision))) }
{
    // Laws, which cost nothing when they run.
    shown_is_read();
    decisions_are_valid();
    let mut typed = Vec::new(alloc);
    typed.extend_from_slice(b"move ")?;
    typed.extend_from_slice(rest)?;
    let mut spelled = Vec::new(alloc);
    append_spelled(alloc, client, numbers, typed.as_slice(), &mut spelled)?;
    note_rule(client, numbers, spelled.as_slice(), rule)?;
    match read_typed_by(client, numbers, spelled.as_slice()) {
        Typed::Decision(decision) => Ok(Some(decision)),
        _ => Ok(None),
    }
}

/// Whether the client reads a decision in a line.
fn decides(client: &Client, line: &[u8]) -> bool
    ensures { (t : Talk) → StandsAfter client.now t → result ≡ is_some (decided (typed_now t line.now)) }
{
    decision_typed(client, Numbers::TheServers, line).is_some()
}

/// What a line asks for that the client does not take: it goes to the server as it is, unless it decides, or is
/// answered by the line to type.
fn wish_foreign(
    client: &Client,
    line: &mut TypedLine,
    page: &mut Page<'_>,
) -> Result<Wish, AllocError>
    ensures sent { SendsUntaken client.now line.new.items result }
    ensures decides { SendsNoDecision client.now line.new.items result }
    ensures quits { NeverQuits result }
{
    if is_passed(line.as_slice())
        && !would_take(client, line.as_slice())
        && !decides(client, line.as_slice())
    {
        return Ok(Wish::Send);
    }
    say_unknown(line.as_slice(), page)?;
    Ok(Wish::Answered)
}

/// Lists the rolls and plays of the game so far.
fn say_moves(story: &Story, rest: &[u8], page: &mut Page<'_>) -> Result<(), AllocError> {
    let alloc = page.alloc;
    match rest {
        b"" => story.append_turns(alloc, page.settings.numbers, false, &mut page.text),
        b"all" => story.append_turns(alloc, page.settings.numbers, true, &mut page.text),
        _ => page.say(WHICH_MOVES),
    }
}

/// Places have these numbers now.
fn set_numbers(rest: &[u8], page: &mut Page<'_>) -> Result<(), AllocError>
    ensures { page.new.settings ≡ record page.old.settings {
      numbers = numbers_after rest.now page.old.settings.numbers;
    } }
{
    let Some(numbers) = read_numbers(rest) else {
        return page.say(WHICH_NUMBERS);
    };
    page.settings.numbers = numbers;
    page.say(match numbers {
        Numbers::TheOwn => OWN_NUMBERS,
        Numbers::TheServers => SERVERS_NUMBERS,
    })
}

/// Of boards that come only what is new is told in words from now on, or they are told whole.
fn set_short(is_short: bool, page: &mut Page<'_>) -> Result<(), AllocError>
    ensures { page.new.settings ≡ record page.old.settings { is_short = is_short } }
{
    page.settings.is_short = is_short;
    say_rows(if is_short { SHORT_WORDS } else { LONG_WORDS }, page)
}

impl<'a> Screen<'a> {
    /// What a line asks for, whether or not a match is on. It is respelled if the client does not know it as it is.
    pub(crate) fn wish_line(
        &mut self,
        client: &Client,
        directory: &Directory,
        line: &mut TypedLine,
    ) -> Result<Wish, AllocError>
        ensures asks { IfOk result (λ wish. AsksInBounds line.old.items (wish_value wish line.new.items)) }
        ensures known { KnownGoesOn client.now self.old.page.settings.numbers self.old.memory.here.situation.standing
            line.old.items line.new.items result }
        ensures shows { ShownGoesOn client.now self.old.page.settings.numbers self.old.memory.here.situation.standing
            line.old.items line.new.items result }
        ensures word { SendsOnWord client.now self.old.memory.here.situation.standing line.old.items line.new.items
            result }
        ensures sent { SendsUntaken client.now line.new.items result }
        ensures tried { OnOk result (TriesOrKeeps client.now self.old.page.settings self.old.memory.here.looking.trial
            self.new.memory.here.looking.trial self.old.page.text.items self.new.page.text.items) }
        ensures went { GoesOn client.now self.old.memory.here.looking.trial line.old.items line.new.items result }
        ensures shown { ShowsTry client.now self.old.page.settings line.old.items self.new.memory.here.looking.trial
            self.old.page.text.items self.new.page.text.items result }
        ensures typed { KeepsTyped client.now self.old.page.settings.numbers line.old.items
            self.new.memory.here.looking.trial result }
        ensures still { KeepsUnanswered self.old.memory.here.looking.trial self.new.memory.here.looking.trial result }
        ensures quit { Quits client.now line.old.items result }
        ensures quits { QuitsBy line.new.items result }
    {
        if line.is_empty() {
            return Ok(Wish::Listen);
        }
        if line.len() > TYPED_LIMIT {
            return Ok(Wish::TooLong);
        }
        let alloc = self.page.alloc;
        let numbers = self.page.settings.numbers;
        self.memory.here.rule = Vec::new(alloc);
        self.memory.here.passing = Passing::Asks;
        if is_command_by(client, numbers, line.as_slice()) {
            return self.wish_known(client, line);
        }
        if let Some(play) = shown_move(alloc, client, numbers, line.as_slice())? {
            return self.wish_shown(client, &play, line);
        }
        self.wish_unknown(client, directory, line)
    }

    /// What a move asks for that a line shows in another spelling: that of its command does.
    fn wish_shown(
        &mut self,
        client: &Client,
        play: &Play,
        line: &mut TypedLine,
    ) -> Result<Wish, AllocError>
        ensures takes { IfOk result (λ wish. (t : Talk) → StandsAfter client.now t →
            TakesPlay t self.old.memory.here.situation.standing (hops_of play.now) line.new.items wish) }
        ensures word { WentOnWord client.now self.old.memory.here.situation.standing line.new.items result }
        ensures sent { SendsUntaken client.now line.new.items result }
        ensures looking { self.new.memory.here.looking ≡ self.old.memory.here.looking }
        ensures quits { NeverQuits result }
    {
        set_shown(client, self.page.settings.numbers, play, line);
        self.wish_command(client, line)
    }

    /// What a command asks for: talk may go to the server as it was typed.
    #[tactic(auto, using(crate::proofs::SendingLemmas::taken_goes, crate::proofs::SendingLemmas::talk_goes))]
    fn wish_known(&mut self, client: &Client, line: &mut TypedLine) -> Result<Wish, AllocError>
        ensures stays { (t : Talk) → StandsAfter client.now t →
            typed_now t line.old.items ≡ typed_by self.old.page.settings.numbers t line.old.items →
            line.new.items ≡ line.old.items }
        ensures known { IfOk result (λ wish. (t : Talk) → StandsAfter client.now t →
            is_command (typed_by self.old.page.settings.numbers t line.old.items) ≡ true →
            IsTakenOrGoes self.old.page.settings.numbers t self.old.memory.here.situation.standing
            line.old.items line.new.items wish) }
        ensures looking { self.new.memory.here.looking ≡ self.old.memory.here.looking }
        ensures quits { NeverQuits result }
    {
        if goes_as_typed(client, line.as_slice()) {
            Ok(Wish::Send)
        } else {
            self.wish_command(client, line)
        }
    }

    /// What any other command asks for.
    fn wish_command(&mut self, client: &Client, line: &mut TypedLine) -> Result<Wish, AllocError>
        ensures stays { (t : Talk) → StandsAfter client.now t →
            typed_now t line.old.items ≡ typed_by self.old.page.settings.numbers t line.old.items →
            line.new.items ≡ line.old.items }
        ensures known { IfOk result (λ wish. (t : Talk) → StandsAfter client.now t →
            is_command (typed_by self.old.page.settings.numbers t line.old.items) ≡ true →
            IsTakenAs self.old.page.settings.numbers t self.old.memory.here.situation.standing
            line.old.items line.new.items wish) }
        ensures looking { self.new.memory.here.looking ≡ self.old.memory.here.looking }
        ensures quits { NeverQuits result }
    {
        let numbers = self.page.settings.numbers;
        note_rule(client, numbers, line.as_slice(), &mut self.memory.here.rule)?;
        let decision = decision_typed(client, numbers, line.as_slice());
        set_meant(client, numbers, line);
        match decision {
            None => Ok(Wish::Say),
            Some(decision) => self.decide(client, &decision),
        }
    }

    /// What a line that the client does not know asks for.
    fn wish_unknown(
        &mut self,
        client: &Client,
        directory: &Directory,
        line: &mut TypedLine,
    ) -> Result<Wish, AllocError>
        ensures word { says_send line.old.items ≡ false → WentOnWord client.now
            self.old.memory.here.situation.standing line.new.items result }
        ensures sent { SendsUntaken client.now line.new.items result }
        ensures tried { OnOk result (TriesOrKeeps client.now self.old.page.settings self.old.memory.here.looking.trial
            self.new.memory.here.looking.trial self.old.page.text.items self.new.page.text.items) }
        ensures went { GoesOn client.now self.old.memory.here.looking.trial line.old.items line.new.items result }
        ensures shown { before 32 line.old.items ≡ codes "try" → AnswersTry client.now self.old.page.settings
            self.new.memory.here.looking.trial self.old.page.text.items self.new.page.text.items result }
        ensures typed { before 32 line.old.items ≡ codes "try" → AfterTry client.now self.old.page.settings.numbers
            line.old.items self.new.memory.here.looking.trial result }
        ensures still { KeepsUnanswered self.old.memory.here.looking.trial self.new.memory.here.looking.trial result }
        ensures quit { Quits client.now line.old.items result }
        ensures quits { QuitsBy line.new.items result }
    {
        let alloc = self.page.alloc;
        let numbers = self.page.settings.numbers;
        let original = line.as_slice().to_vec(alloc)?;
        spell(alloc, client, numbers, line)?;
        if line.as_slice() == b"open".as_slice() {
            self.memory.program.reconnecting.begin();
            return Ok(Wish::Open);
        }
        if line.as_slice() == b"quit".as_slice() {
            return Ok(Wish::Quit);
        }
        let typed = line.as_slice().to_vec(alloc)?;
        self.wish_typed(
            client,
            directory,
            original.as_slice(),
            typed.as_slice(),
            line,
        )
    }

    /// What a line asks for that may begin with a word of the terminal, and was spelled otherwise at first.
    #[tactic(auto, using(crate::proofs::SendingLemmas::nothing_went))]
    fn wish_typed(
        &mut self,
        client: &Client,
        directory: &Directory,
        original: &[u8],
        typed: &[u8],
        line: &mut TypedLine,
    ) -> Result<Wish, AllocError>
        ensures word { says_send original.now ≡ false → WentOnWord client.now
            self.old.memory.here.situation.standing line.new.items result }
        ensures sent { SendsUntaken client.now line.new.items result }
        ensures tried { OnOk result (TriesOrKeeps client.now self.old.page.settings self.old.memory.here.looking.trial
            self.new.memory.here.looking.trial self.old.page.text.items self.new.page.text.items) }
        ensures went { GoesOn client.now self.old.memory.here.looking.trial typed.now line.new.items result }
        ensures shown { before 32 typed.now ≡ codes "try" → AnswersTry client.now self.old.page.settings
            self.new.memory.here.looking.trial self.old.page.text.items self.new.page.text.items result }
        ensures typed { before 32 typed.now ≡ codes "try" → AfterTry client.now self.old.page.settings.numbers
            typed.now self.new.memory.here.looking.trial result }
        ensures still { KeepsUnanswered self.old.memory.here.looking.trial self.new.memory.here.looking.trial result }
        ensures quits { NeverQuits result }
    {
        let rest = after_word(typed);
        let start = self.page.text.len();
        match own_word(split(typed, b' ').0) {
            None => {
                let wish = self.wish_other(client, original, line)?;
                fit_from(start, &mut self.page)?;
                Ok(wish)
            }
            Some(Own::Re) => {
                let talk = &self.memory.program.talk;
                let wish = talk.answer(client, rest, line, &mut self.page)?;
                fit_from(start, &mut self.page)?;
                Ok(wish)
            }
            Some(Own::Go) => {
                let here = &mut self.memory.here;
                let is_free = is_free(here.situation.standing);
                here.advising.inquired = is_free || here.advising.inquired;
                let looking = &here.looking;
                let wish = looking.send_tried(client, is_free, line, &mut self.page)?;
                fit_from(start, &mut self.page)?;
                Ok(wish)
            }
            Some(Own::Try) => {
                self.try_move(client, rest)?;
                Ok(Wish::Answered)
            }
            Some(Own::Here(here)) => {
                self.answer_here(client, directory, here, rest)?;
                Ok(Wish::Answered)
            }
        }
    }

    /// What a line asks for that begins with no word of the terminal but `send`.
    #[tactic(auto, using(crate::proofs::SendingLemmas::command_on_word, crate::proofs::SendingLemmas::command_untaken))]
    fn wish_other(
        &mut self,
        client: &Client,
        original: &[u8],
        line: &mut TypedLine,
    ) -> Result<Wish, AllocError>
        ensures word { says_send original.now ≡ false → WentOnWord client.now
            self.old.memory.here.situation.standing line.new.items result }
        ensures sent { SendsUntaken client.now line.new.items result }
        ensures looking { self.new.memory.here.looking ≡ self.old.memory.here.looking }
        ensures quits { NeverQuits result }
    {
        if let Some(rest) = after_send(original) {
            return send(client, rest, line, &mut self.page);
        }
        let numbers = self.page.settings.numbers;
        let is_known = is_command_by(client, numbers, line.as_slice());
        if is_known {
            return self.wish_known(client, line);
        }
        wish_foreign(client, line, &mut self.page)
    }

    /// Answers a word, with what follows it: the words of the terminal may be in capitals, and a name is as it is.
    fn answer_here(
        &mut self,
        client: &Client,
        directory: &Directory,
        here: Here,
        rest: &[u8],
    ) -> Result<(), AllocError>
        ensures { self.new.memory.here.looking.trial ≡ self.old.memory.here.looking.trial }
    {
        let alloc = self.page.alloc;
        let rest = without_spaces(rest);
        let small = rest.to_ascii_lowercase(alloc)?;
        let small = small.as_slice();
        match here {
            // their rows have room, or are those of people
            Here::Words => self.answer_words(client, small),
            Here::Columns => self.set_columns(small),
            Here::Rows => self.set_rows(small),
            Here::Board => self.place_board(small),
            Here::Talk => self.memory.program.talk.say_rows(&mut self.page),
            _ => {
                let start = self.page.text.len();
                self.answer_in_rows(client, directory, here, rest, small)?;
                fit_from(start, &mut self.page)
            }
        }
    }

    /// Answers any other word.
    fn answer_in_rows(
        &mut self,
        client: &Client,
        directory: &Directory,
        here: Here,
        rest: &[u8],
        small: &[u8],
    ) -> Result<(), AllocError>
        ensures { self.new.memory.here.looking.trial ≡ self.old.memory.here.looking.trial }
    {
        match here {
            Here::Words | Here::Columns | Here::Rows | Here::Board | Here::Talk => Ok(()),
            Here::Help => self.say_help(small),
            Here::Plays => self
                .memory
                .here
                .looking
                .say_plays(client, small, &mut self.page),
            Here::Players => self.answer_players(client, directory, rest),
            Here::Moves => say_moves(&self.memory.here.table.story, small, &mut self.page),
            Here::Matches => self.say_matches(rest),
            Here::Reconnect => self.ask_reconnect(client),
            Here::Stay => self.stay(),
            Here::Fix => self.fix(client),
            Here::Numbers => set_numbers(small, &mut self.page),
            Here::Gag => self.memory.program.people.gag(rest, &mut self.page),
            Here::Ungag => self.memory.program.people.ungag(rest, &mut self.page),
            Here::Quiet => self.memory.program.people.set_quiet(true, &mut self.page),
            Here::Loud => self.memory.program.people.set_quiet(false, &mut self.page),
            Here::Arrivals => self.memory.program.people.set_arrivals(&mut self.page),
        }
    }

    /// Answers `words`, by what follows it.
    fn answer_words(&mut self, client: &Client, rest: &[u8]) -> Result<(), AllocError>
        ensures { self.new.memory.here.looking ≡ self.old.memory.here.looking }
    {
        let here = &mut self.memory.here;
        let page = &mut self.page;
        match rest {
            b"" => say_board(client, &mut here.watching, &mut here.table.boards, page),
            b"score" => say_fact(client, &here.watching, Fact::Score, page),
            b"cube" => say_fact(client, &here.watching, Fact::Cube, page),
            b"short" => set_short(true, page),
            b"long" => set_short(false, page),
            _ => say_rows(WHICH_WORDS, page),
        }
    }

    /// Shows the board to which a move would lead, and sends nothing. A move that the client would not take now is
    /// refused as if it were typed.
    fn try_move(&mut self, client: &Client, rest: &[u8]) -> Result<(), AllocError>
        ensures tried { OnOk result (Tries client.now self.old.page.settings self.new.memory.here.looking.trial
            self.old.page.text.items self.new.page.text.items) }
        ensures typed { OnOk result (TriesTyped client.now self.old.page.settings.numbers rest.now
            self.new.memory.here.looking.trial) }
    {
        let alloc = self.page.alloc;
        let numbers = self.page.settings.numbers;
        self.memory.here.looking.forget_trial();
        let Some(decision) = read_move(alloc, client, numbers, rest, &mut self.memory.here.rule)?
        else {
            return say_rows(TRY_WHAT, &mut self.page);
        };
        if let Some(why) = client.refusal(&decision) {
            return self.say_refused(why);
        }
        match trial_of(client, &decision) {
            None => say_rows(TRY_WHAT, &mut self.page),
            Some(trial) => self.memory.here.looking.show_trial(trial, &mut self.page),
        }
    }

    /// Says what may be typed. What is advised now follows.
    fn say_help(&mut self, word: &[u8]) -> Result<(), AllocError>
        ensures { self.new.memory.here.looking ≡ self.old.memory.here.looking }
    {
        if word.is_empty() {
            self.memory.here.advising.inquired = true;
            let is_told = self.page.settings.words || is_narrow(&self.page);
            self.page.say(help::screen(is_told))?;
            return self.memory.here.watching.say_hint(&mut self.page);
        }
        match help::word_help(split(word, b' ').0) {
            Some(words) => self.page.say(words),
            None => self.page.say(b"No such word: help lists the words.\n"),
        }
    }
}
