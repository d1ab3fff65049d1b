//! What a user's own settings change of a terminal.
ghost use Rattle.std.specs.Prelude.{◌≡◌, ◌⊎◌, IfOk};
ghost use Rattle.fibs_wording.specs.declared.environment.config.Setting.{Setting as TheSetting};
ghost use Rattle.fibs_terminal.specs.Configured.{PeopleAfter, off_after, reconnecting_after, settings_after};

use crate::screen::Screen;
use crate::terminal::Terminal;
use fibs_connect::fault::FrontFault;
use fibs_engine::writing::write_bytes;
use fibs_wording::environment::broken::front_of;
use fibs_wording::environment::pieces::append_all;
use fibs_wording::environment::{Config, Setting, Telling, read_setting};
use itoa::Buffer;
use std::alloc::AllocError;
use std::io::Write;
use std::time::Clock;

/// How many bytes of a line that is no setting are shown: with the rest the row fits.
const MOST_SHOWN: usize = 30;

impl<'a> Screen<'a> {
    /// Changes what a setting asks for. False if it names nobody whose words could be hidden.
    fn change(&mut self, setting: Setting<'_>) -> Result<bool, AllocError>
        ensures shown { self.new.page ≡ record self.old.page {
          settings = settings_after setting.entry self.old.page.settings;
        } }
        ensures record { self.new.record ≡ record self.old.record {
          is_off = off_after setting.entry self.old.record.is_off;
        } }
        ensures people { IfOk result (λ is_one. PeopleAfter setting.entry self.old.memory.program.people
            self.new.memory.program.people) }
        ensures memory { self.new.memory ≡ record self.old.memory {
          program = record self.old.memory.program {
            people = self.new.memory.program.people;
            reconnecting = reconnecting_after setting.entry self.old.memory.program.reconnecting;
          };
        } }
    {
        let alloc = self.page.alloc;
        match setting {
            Setting::Nothing => {}
            Setting::Gag(name) => return self.memory.program.people.hide(alloc, name),
            Setting::Quiet => self.memory.program.people.hide_all(),
            Setting::Arrivals => self.memory.program.people.arrivals = true,
            Setting::Words(telling) => {
                self.page.settings.words = true;
                self.page.settings.is_short = matches!(telling, Telling::Short);
            }
            Setting::NoColour => self.page.settings.colour = false,
            Setting::NoBell => self.page.settings.bell = false,
            Setting::NoTitle => self.page.settings.title = false,
            Setting::NoRecord => self.record.is_off = true,
            Setting::Letters(letters) => self.page.settings.letters = Some(letters),
            Setting::HomeAbove => self.page.settings.is_turned = true,
            Setting::Numbers(numbers) => self.page.settings.numbers = numbers,
            Setting::BoardAbove(is_above) => self.page.settings.above = Some(is_above),
            // it is given as if it were typed
            Setting::OrderRoll => {}
            Setting::Reconnect => self.memory.program.reconnecting.ask(false),
        }
        Ok(true)
    }

    /// Changes what a line of the file asks for. False if it is no setting.
    fn set(&mut self, line: &[u8]) -> Result<bool, AllocError>
        ensures text { self.new.page.text ≡ self.old.page.text }
        ensures here { self.new.memory.here ≡ self.old.memory.here }
        ensures settings { (self.new.page.settings ≡ self.old.page.settings)
            ⊎ ((setting : TheSetting) × (self.new.page.settings ≡ settings_after setting self.old.page.settings)) }
    {
        match read_setting(line) {
            None => Ok(false),
            Some(setting) => self.change(setting),
        }
    }

    /// Says that a line of the file is no setting.
    fn say_no_setting(
        &mut self,
        path: &[u8],
        number: usize,
        line: &[u8],
    ) -> Result<(), AllocError> {
        let alloc = self.page.alloc;
        let mut room = Buffer::new();
        let digits = room.format(number).as_bytes();
        let shown = front_of(line, MOST_SHOWN);
        let mut row = Vec::new(alloc);
        append_all(
            &[
                b"fibs: line ",
                digits,
                b" of ",
                path,
                b" is no setting: ",
                shown,
            ],
            &mut row,
        )?;
        self.page.show_row(row.as_slice())
    }

    /// Changes what the file asks for, and says which of its lines are no setting.
    fn configure(&mut self, config: &Config) -> Result<(), AllocError> {
        if config.is_unread() {
            let alloc = self.page.alloc;
            let mut row = Vec::new(alloc);
            append_all(
                &[b"fibs: the settings of ", config.path(), b" can't be read"],
                &mut row,
            )?;
            return self.page.show_row(row.as_slice());
        }
        let mut number = 0usize;
        for line in config.bytes().split(|byte| *byte == b'\n') {
            number = number.saturating_add(1);
            if !self.set(line)? {
                self.say_no_setting(config.path(), number, line)?;
            }
        }
        Ok(())
    }
}

impl<W: Write + Drop, C: Clock + Drop> Terminal<'_, W, C> {
    /// Changes what the user's own settings ask for, and shows which lines of them are none: the others count.
    ///
    /// Errors: `Output` if a write fails, or memory runs out (`is_out_of_memory`).
    pub fn configure(&mut self, config: &Config) -> Result<(), FrontFault> {
        self.screen.page.text.clear();
        if self.screen.configure(config).is_err() {
            self.screen.ran_out = true;
            return Err(FrontFault::Output);
        }
        write_bytes(self.screen.page.text.as_slice(), &mut self.out)?;
        Ok(())
    }
}
