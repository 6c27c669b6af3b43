//! What the lines of a script say so far.

ghost use Rattle.script_text.specs.Reading.{with_setting};
ghost use Rattle.std.specs.Prelude.{◌≡◌};

use crate::accounts::AccountList;
use crate::event::{Event, Setup};
use crate::line::{Line, Setting, read_line};
use account_history::Opening;
use account_rules::Settings;
use lg_base::{Items, Memory};
use std::alloc::Global;
use std::marker::Model;

/// The parts of a script, in their order.
#[derive(Clone, Copy, Debug, PartialEq, Eq)]
pub enum Phase {
    /// No event was read yet.
    Setup,
    /// An event was read.
    Events,
    /// `end` was read.
    Ended,
}

/// What the lines so far say.
#[derive(Drop)]
pub struct Progress {
    phase: Phase,
    accounts: AccountList,
    settings: Settings,
    events: Items<Event>,
    alloc: Global,
}

impl Model for Progress {
    ghost use Rattle.script_text.specs.Reading as reading;
    ghost use Rattle.script_text.specs.Reading.{AreGiven};

    ghost Value = { reading.Progress };

    ghost view = { λ p. record { phase = p.phase; accounts = p.accounts; settings = p.settings; events = p.events } };

    ghost invariant = { λ p. AreGiven p.settings p.events };
}

/// The settings, one of which has another value.
fn with_setting(mut settings: Settings, setting: Setting) -> Settings
    ensures { result ≡ with_setting settings setting }
{
    match setting {
        Setting::Lifetime(days) => settings.lifetime = days,
        Setting::History(count) => settings.history = count,
        Setting::Reuse(days) => settings.reuse = days,
        Setting::Disconnect(on) => settings.disconnect = on,
    }
    settings
}

impl Progress {
    ghost use Rattle.account_machine.specs.Openings.{is_opening};
    ghost use Rattle.script_text.specs.EventLines.{IsEvent};
    ghost use Rattle.script_text.specs.Lines.{is_setting};
    ghost use Rattle.script_text.specs.Reading.{AreEvents, IsSetup, Takes, after_line, setup_of, start, taken};
    ghost use Rattle.script_text.specs.declared.progress.Phase.TheVariants as phase;
    ghost use Rattle.script_text.specs.declared.line.Line.TheVariants as line;
    ghost use Rattle.std.specs.Prelude.{◌≡◌, ◌≢◌, IfSome, MatchOption, true};

    /// Before the first line.
    pub fn new(alloc: Global) -> Progress
        ensures { result ≡ start }
    {
        Progress {
            phase: Phase::Setup,
            accounts: AccountList::new(alloc),
            settings: Settings {
                lifetime: 0,
                disconnect: true,
                history: 0,
                reuse: 0,
            },
            events: Items::new(alloc),
            alloc,
        }
    }

    /// Takes an account.
    fn take_account(&mut self, opening: Opening) -> Result<bool, Memory>
        requires { is_opening opening ≡ true }
        ensures { Takes (taken (line.Account opening) self.old) self.new result }
    {
        if self.phase != Phase::Setup {
            return Ok(false);
        }
        self.accounts.add(opening)
    }

    /// Takes a setting.
    fn take_setting(&mut self, setting: Setting) -> bool
        requires { is_setting setting ≡ true }
        ensures { Takes (taken (line.Set setting) self.old) self.new (Ok result) }
    {
        if self.phase != Phase::Setup {
            return false;
        }
        self.settings = with_setting(self.settings, setting);
        true
    }

    /// Takes an event.
    fn take_event(&mut self, event: Event) -> Result<bool, Memory>
        requires { IsEvent event }
        ensures { Takes (taken (line.Happens event) self.old) self.new result }
    {
        if self.phase == Phase::Ended {
            return Ok(false);
        }
        self.events.push(event)?;
        self.phase = Phase::Events;
        Ok(true)
    }

    /// Takes the end.
    fn take_end(&mut self) -> bool
        ensures { Takes (taken line.End self.old) self.new (Ok result) }
    {
        if self.phase == Phase::Ended {
            return false;
        }
        self.phase = Phase::Ended;
        true
    }

    /// Takes a line, and says whether it fits.
    pub fn take(&mut self, line: &[u8]) -> Result<bool, Memory>
        ensures { Takes (after_line line.now self.old) self.new result }
    {
        match read_line(self.alloc, line)? {
            None => Ok(false),
            Some(Line::Skipped) => Ok(true),
            Some(Line::Account(opening)) => self.take_account(opening),
            Some(Line::Set(setting)) => Ok(self.take_setting(setting)),
            Some(Line::Happens(event)) => self.take_event(event),
            Some(Line::End) => Ok(self.take_end()),
        }
    }

    /// What the script says, if `end` was read.
    pub fn finish(self) -> Option<(Setup, Items<Event>)>
        ensures read { MatchOption result (self.phase ≢ phase.Ended) (λ found. (self.phase ≡ phase.Ended) × (found ≡ (setup_of self, self.events))) }
        ensures given { IfSome result (λ found. IsSetup found.0 × AreEvents found.1) }
    {
        let Progress {
            phase,
            accounts,
            settings,
            events,
            alloc: _,
        } = self;
        if phase != Phase::Ended {
            return None;
        }
        let accounts = accounts.into_items();
        Some((Setup { accounts, settings }, events))
    }
}
