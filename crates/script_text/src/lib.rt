//! The text of a replay script, read into a setup and a list of events.
//!
//! **[`Script::read`] gives what a text says if each of its lines fits behind those before it, and else
//! the number of the first that doesn't.** The setup is one of which `account_machine` can make a start, and
//! `login_client` can make a client of what each `client` line says.
//!
//! A script is this project's own format, one line after another, each ended by LF:
//!
//! ```text
//! # an account with the user ann and the password secret
//! account 616e6e 736563726574
//! set history 3
//!
//! clock 86400
//! admin CREATE USER 'bob'@'localhost' IDENTIFIED BY 'word'
//! open 1
//! bytes 1 0100000000
//! run 1
//! client 2 1028a200 616e6e 736563726574
//! down 2 20
//! run 2
//! say 2 FLUSH PRIVILEGES
//! run 2
//! fail keeper
//! end
//! ```
//!
//! `specs/Lines.antt` says what a line says, with `specs/EventLines.antt` and `specs/ClientLines.antt` for what
//! happens, `specs/Reading.antt` which lines fit where, and `specs/Grammar.antt` what a script is as a whole;
//! `docs/REPLAY.md` explains them by example. Below stand `lg_base`, `account_rules` for settings,
//! `account_history` and `account_machine` for the accounts of a start, `login_client` and `auth_packets` for
//! what a client logs in with, `hex` and `thiserror`.
#![tactic(auto)]

ghost use Rattle.script_text.specs.Reading.{Finishes, IsContents, Reads};
ghost use Rattle.std.specs.Prelude.{IfOk};

mod accounts;
mod client_line;
pub mod event;
mod event_line;
mod line;
mod progress;
mod words;

pub use event::{Event, Setup};
use lg_base::{Items, Memory};
use progress::Progress;
use std::alloc::Global;
use std::marker::Model;
use thiserror::Error;
use words::cut;
pub use words::number_of;

/// Why a text is no script.
#[derive(Debug, PartialEq, Eq, Drop, Error)]
pub enum ScriptFault {
    /// The first line that doesn't fit, counted from 1: the line after the last one where `end` is
    /// missing.
    #[error("line {line} doesn't fit")]
    BadLine { line: u64 },
    /// No memory was to be had.
    #[error("no memory was to be had")]
    Memory,
}

impl From<Memory> for ScriptFault {
    ghost use Rattle.script_text.specs.declared.ScriptFault.TheVariants as fault;
    ghost use Rattle.std.specs.Prelude.{◌≡◌};

    ghost from_gives = { λ _ made. made ≡ fault.Memory };

    fn from(_refused: Memory) -> ScriptFault {
        ScriptFault::Memory
    }
}

/// A script that was read.
#[derive(Debug, Drop)]
pub struct Script {
    setup: Setup,
    events: Items<Event>,
}

impl Model for Script {
    ghost use Rattle.script_text.specs.Reading.{Contents, IsContents};

    ghost Value = { Contents };

    ghost view = { λ s. record { setup = s.setup; events = s.events } };

    ghost invariant = { λ s. IsContents s.setup s.events };
}

impl Script {
    ghost use Rattle.script_text.specs.Grammar.{Accepts};
    ghost use Rattle.script_text.specs.Reading.{AreEvents, IsContents, IsSetup, Reads};
    ghost use Rattle.std.specs.Prelude.{◌≡◌};

    /// The script of a setup and of events that lines can give.
    pub fn new(setup: Setup, events: Items<Event>) -> Script
        requires { IsContents setup events }
        ensures { result ≡ record { setup = setup; events = events } }
    {
        Script { setup, events }
    }

    /// What `text` says, or the first of its lines that doesn't fit. It takes time as the text is long, and
    /// a little more for each account. Only a text that is no script has a bad line.
    pub fn read(alloc: Global, text: &[u8]) -> Result<Script, ScriptFault>
        ensures reads { Reads text.now result }
        ensures accepts { Accepts text.now result }
    {
        read_lines(alloc, text)
    }

    /// What stands at the start. `account_machine` can make a start of it.
    pub fn setup(&self) -> &Setup
        ensures same { result.now ≡ (self.now).setup }
        ensures given { IsSetup result.now }
    {
        &self.setup
    }

    /// What happens, in order. No session has the number 0, and `login_client` can make a client of what stands
    /// in each `Client`, where the method in the clear is permitted.
    pub fn events(&self) -> &[Event]
        ensures same { result.now ≡ (self.now).events }
        ensures given { AreEvents result.now }
    {
        self.events.as_slice()
    }
}

/// Ends a script at what stands behind the last LF, which would be the line of this number.
fn finish(said: Progress, last: &[u8], number: u64) -> Result<Script, ScriptFault>
    ensures ends { Finishes said last.now number result }
    ensures given { IfOk result (λ script. IsContents script.setup script.events) }
{
    if !last.is_empty() {
        return Err(ScriptFault::BadLine { line: number });
    }
    match said.finish() {
        None => Err(ScriptFault::BadLine { line: number }),
        Some((setup, events)) => Ok(Script { setup, events }),
    }
}

/// What `text` says, line by line.
fn read_lines(alloc: Global, text: &[u8]) -> Result<Script, ScriptFault>
    ensures reads { Reads text.now result }
    ensures given { IfOk result (λ script. IsContents script.setup script.events) }
{
    let mut said = Progress::new(alloc);
    let mut rest = text;
    let mut number: u64 = 1;
    'lines: loop {
        let (line, behind) = cut(rest, b'\n');
        let Some(behind) = behind else {
            return finish(said, line, number);
        };
        if !said.take(line)? {
            return Err(ScriptFault::BadLine { line: number });
        }
        rest = behind;
        number += 1;
    }
}
