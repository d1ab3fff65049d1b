//! Whose words are hidden, and who was listed.
ghost use Rattle.std.specs.Prelude.{◌≡◌, ◌<◌, ◌+◌, ◌⊎◌, [], IfOk, IfSome, IsSome, IsTrue, None, OnOk, false, not, true};
ghost use Rattle.fibs_fields.specs.Bytes.{name_bytes};
ghost use Rattle.fibs_terminal.specs.Boxes.{IsEmptyList};
ghost use Rattle.fibs_terminal.specs.KeptLists.{AddsName, IsAmong, IsNotAmong, without};
ghost use Rattle.fibs_terminal.specs.Listed.{after_end, after_passed, is_coming, is_of_everybody, is_of_login};
ghost use Rattle.fibs_terminal.specs.declared.people.ListAsked.TheVariants as A;

use crate::account::Account;
use crate::own_rows::{is_narrow, say_rows};
use crate::screen::Screen;
use fibs_fields::name::Name;
use fibs_fields::split::split;
use fibs_messages::WhoInfo;
use fibs_position::Decision;
use fibs_session::{Client, Directory, Refusal};
use fibs_wording::environment::Page;
use fibs_wording::environment::pieces::short_name;
use fibs_wording::lists::append_count;
use fibs_wording::messages::append_player;
use fibs_wording::players::append_players;
use std::alloc::{AllocError, Global};
use std::mem;

/// What is said if the list of players is still to come.
const NOT_LISTED_YET: &[u8] =
    b"Not listed yet: the players are shown as soon as the server has listed them.\n";

/// Whose words are hidden.
#[derive(Drop)]
pub struct People {
    /// Whether shouts are hidden, and who comes and goes.
    pub quiet: bool,
    /// Whether who comes and goes is shown, whatever the user does.
    pub arrivals: bool,
    /// The players whose words are hidden.
    gagged: Vec<Vec<u8>>,
}

impl People {
    /// Nobody is hidden.
    pub fn new(alloc: Global) -> People
        ensures quiet { result.quiet ≡ false }
        ensures arrivals { result.arrivals ≡ false }
        ensures gagged { result.gagged.items ≡ [] }
    {
        People {
            quiet: false,
            arrivals: false,
            gagged: Vec::new(alloc),
        }
    }

    /// Whether the words of a player are hidden.
    pub fn is_gagged(&self, name: &[u8]) -> bool
        ensures gagged { IsTrue result → IsAmong name.now self.now.gagged.items }
        ensures heard { result ≡ false → IsNotAmong name.now self.now.gagged.items }
    {
        for gagged in &self.gagged {
            if gagged.as_slice() == name {
                return true;
            }
        }
        false
    }

    /// Hides what a player says. False if it is not a name.
    pub fn hide(&mut self, alloc: Global, name: &[u8]) -> Result<bool, AllocError>
        ensures hidden { IfOk result (λ is_name. IsTrue is_name →
            AddsName self.old.gagged.items name.now self.new.gagged.items) }
        ensures no_name { IfOk result (λ is_name. is_name ≡ false → self.new ≡ self.old) }
        ensures quiet { self.new.quiet ≡ self.old.quiet }
        ensures arrivals { self.new.arrivals ≡ self.old.arrivals }
    {
        if Name::new(name).is_none() {
            return Ok(false);
        }
        if !self.is_gagged(name) {
            self.gagged.push(Vec::from_slice(alloc, name)?)?;
        }
        Ok(true)
    }

    /// Hides what a player says, and says so.
    pub fn gag(&mut self, name: &[u8], page: &mut Page<'_>) -> Result<(), AllocError>
        ensures hidden { OnOk result ((self.new ≡ self.old)
            ⊎ AddsName self.old.gagged.items name.now self.new.gagged.items) }
        ensures quiet { self.new.quiet ≡ self.old.quiet }
        ensures arrivals { self.new.arrivals ≡ self.old.arrivals }
    {
        let alloc = page.alloc;
        if !self.hide(alloc, name)? {
            return page.say(b"gag NAME: whose words are kept from the screen.\n");
        }
        page.say_all(&[
            short_name(name),
            b" is gagged on this screen: ungag NAME ends it.\n",
        ])
    }

    /// Shows again what a player says.
    pub fn ungag(&mut self, name: &[u8], page: &mut Page<'_>) -> Result<(), AllocError>
        ensures heard { (self.new ≡ self.old) ⊎ (self.new.gagged.items ≡ without name.now self.old.gagged.items) }
        ensures quiet { self.new.quiet ≡ self.old.quiet }
        ensures arrivals { self.new.arrivals ≡ self.old.arrivals }
    {
        if name.is_empty() {
            return page.say(b"ungag NAME: whose words are shown again.\n");
        }
        let before = self.gagged.len();
        self.gagged.retain(|gagged| gagged.as_slice() != name);
        if self.gagged.len() == before {
            return page.say(b"Nobody of that name is gagged.\n");
        }
        page.say_all(&[short_name(name), b" is heard again.\n"])
    }

    /// Hides shouts, and who comes and goes, in a match too.
    pub fn hide_all(&mut self)
        ensures { self.new ≡ record self.old { quiet = true; arrivals = false } }
    {
        self.quiet = true;
        self.arrivals = false;
    }

    /// Hides shouts, and who comes and goes, or shows them again.
    pub fn set_quiet(&mut self, quiet: bool, page: &mut Page<'_>) -> Result<(), AllocError>
        ensures quiet { quiet ≡ true → self.new ≡ record self.old { quiet = true; arrivals = false } }
        ensures loud { quiet ≡ false → self.new ≡ record self.old { quiet = false } }
    {
        if quiet {
            self.hide_all();
            return page.say(b"quiet: no shouts, and not who comes and goes; loud shows them.\n");
        }
        self.quiet = false;
        page.say(b"loud: shouts, and who comes and goes; not in a match: arrivals shows that.\n")
    }

    /// Shows who comes and goes, also in a match; or in a match no longer.
    pub fn set_arrivals(&mut self, page: &mut Page<'_>) -> Result<(), AllocError>
        ensures { self.new ≡ record self.old { arrivals = not self.old.arrivals } }
    {
        self.arrivals = !self.arrivals;
        page.say(if self.arrivals {
            b"arrivals: who comes and goes is shown in a match too; arrivals again ends it.\n"
        } else {
            b"Who comes and goes is no longer shown in a match; arrivals shows it.\n"
        })
    }

    /// Whether the screen is quiet.
    pub fn is_quiet(&self) -> bool
        ensures { result ≡ self.now.quiet }
    {
        self.quiet
    }
}

/// What list of players was asked for that has not come.
#[derive(Clone, Copy, Debug, PartialEq, Eq)]
pub enum ListAsked {
    /// None.
    Nothing,
    /// That of all players, which comes at a login.
    Login,
    /// That of all players, by `who`.
    Everybody,
    /// That of some players, as of `who ready` or `who bob`.
    Some,
}

/// A list of players that is coming.
#[derive(Drop)]
pub struct List {
    /// What was asked for.
    pub asked: ListAsked,
    /// How many players were listed since the last list ended.
    count: usize,
    /// The row of the last of them.
    last: Vec<u8>,
    /// The name of the last of them.
    name: Vec<u8>,
    /// What followed `players`, if the user has typed it before the list of the login, which is shown when it comes.
    wanted: Option<Vec<u8>>,
}

impl List {
    /// Nobody was listed.
    pub fn new(alloc: Global) -> List
        ensures { IsEmptyList result }
    {
        List {
            asked: ListAsked::Nothing,
            count: 0,
            last: Vec::new(alloc),
            name: Vec::new(alloc),
            wanted: None,
        }
    }

    /// The user has asked by these words for the list that is to come.
    pub fn want(&mut self, alloc: Global, words: &[u8]) -> Result<(), AllocError>
        ensures asked { OnOk result (IsSome self.new.wanted) }
        ensures words { OnOk result (IfSome self.new.wanted (λ wanted. wanted.items ≡ words.now)) }
    {
        self.wanted = Some(Vec::from_slice(alloc, words)?);
        Ok(())
    }

    /// By which words he has asked for the list that has come, if he has. It is shown once.
    pub fn take_wanted(&mut self) -> Option<Vec<u8>>
        ensures words { result ≡ self.old.wanted }
        ensures once { self.new.wanted ≡ None }
        ensures kept { self.new ≡ record self.old { wanted = None } }
    {
        mem::replace(&mut self.wanted, None)
    }

    /// The user has sent a line as it is.
    pub fn hear_passed(&mut self, line: &[u8])
        ensures { self.new ≡ record self.old { asked = after_passed line.now self.old.asked } }
    {
        if split(line, b' ').0 == b"who".as_slice() {
            self.asked = ListAsked::Some;
        }
    }

    /// A player was listed.
    pub fn hear_player(&mut self, info: &WhoInfo<'_>) -> Result<(), AllocError>
        ensures name { OnOk result (self.new.name.items ≡ name_bytes info.now.name) }
        ensures count { self.old.count < 4_294_967_295 → self.new.count ≡ self.old.count + 1 }
        ensures asked { self.new.asked ≡ self.old.asked }
        ensures wanted { self.new.wanted ≡ self.old.wanted }
    {
        self.count = self.count.saturating_add(1);
        self.name.clear();
        self.name.extend_from_slice(info.name.bytes())?;
        self.last.clear();
        append_player(info, &mut self.last)
    }

    /// Whether players were listed since the last list ended.
    pub fn is_coming(&self) -> bool
        ensures { result ≡ is_coming self.now }
    {
        self.count > 0
    }

    /// Who was listed last; empty if nobody was.
    pub fn last_name(&self) -> &[u8]
        ensures { result.now ≡ self.now.name.items }
    {
        self.name.as_slice()
    }

    /// Whether it is the list that comes at a login: it has more than one who has changed, or the user alone.
    pub fn is_of_login(&self, own: &[u8]) -> bool
        ensures { result ≡ is_of_login self.now own.now }
    {
        self.asked == ListAsked::Login
            && (self.count > 1 || (self.count == 1 && self.name.as_slice() == own))
    }

    /// Whether it is the list of all players for which the user has asked.
    pub fn is_of_everybody(&self) -> bool
        ensures { result ≡ is_of_everybody self.now }
    {
        self.asked == ListAsked::Everybody && self.count > 1
    }

    /// The list has ended, and was told.
    pub fn forget(&mut self)
        ensures { self.new ≡ record self.old { count = 0; asked = A.Nothing } }
    {
        self.count = 0;
        self.asked = ListAsked::Nothing;
    }

    /// A list has ended: one row for a list that was asked for, and one for a player who has changed, if that is shown.
    /// What else has changed is in the list already. A player may have changed before all are listed.
    pub fn hear_end(&mut self, is_shown: bool, page: &mut Page<'_>) -> Result<(), AllocError>
        ensures ended { self.new ≡ after_end self.old }
        ensures silent { self.old.count ≡ 0 → page.new.text.items ≡ page.old.text.items }
        ensures unasked { self.old.asked ≡ A.Nothing → is_shown ≡ false → page.new.text.items ≡ page.old.text.items }
    {
        let (count, asked) = (self.count, self.asked);
        self.count = 0;
        if count > 1 || asked == ListAsked::Some {
            self.asked = ListAsked::Nothing;
        }
        if count > 1 && asked != ListAsked::Nothing {
            append_count(count, &mut page.text)?;
            page.say(b": type players\n")
        } else if count == 1 && (is_shown || asked == ListAsked::Some) {
            say_rows(self.last.as_slice(), page)
        } else {
            Ok(())
        }
    }
}

/// Lists the players for whom the user asks by words.
pub(crate) fn say_players(
    players: &Directory,
    words: &[u8],
    account: &Account,
    page: &mut Page<'_>,
) -> Result<(), AllocError> {
    let alloc = page.alloc;
    let is_told = page.settings.words || is_narrow(page);
    let mut rows = Vec::new(alloc);
    append_players(alloc, players, words, &account.asker(is_told), &mut rows)?;
    say_rows(rows.as_slice(), page)
}

impl<'a> Screen<'a> {
    /// Answers `players`, by what follows it: if the list of the login is still to come, it is shown then.
    pub(crate) fn answer_players(
        &mut self,
        client: &Client,
        directory: &Directory,
        words: &[u8],
    ) -> Result<(), AllocError>
        ensures { self.new.memory.here.looking ≡ self.old.memory.here.looking }
    {
        let logs_in = client.refusal(&Decision::Roll) == Some(Refusal::NotReady);
        let is_due = logs_in || self.memory.here.greeting.awaits_list();
        if is_due && (directory.is_empty() || self.memory.here.list.is_coming()) {
            let alloc = self.page.alloc;
            self.memory.here.list.want(alloc, words)?;
            return self.page.say(NOT_LISTED_YET);
        }
        say_players(
            directory,
            words,
            &self.memory.program.account,
            &mut self.page,
        )
    }

    /// The list of the login has come: it is shown, if the user has asked for it.
    pub(crate) fn say_wanted(&mut self) -> Result<(), AllocError>
        ensures { self.new.memory ≡ record self.old.memory {
          here = record self.old.memory.here { list = record self.old.memory.here.list { wanted = None } };
        } }
    {
        let here = &mut self.memory.here;
        match here.list.take_wanted() {
            None => Ok(()),
            Some(words) => say_players(
                here.company.listed(),
                words.as_slice(),
                &self.memory.program.account,
                &mut self.page,
            ),
        }
    }
}
