//! How a session and its client go on by themselves, and what each event does.

ghost use Rattle.script_text.specs.EventLines.{IsEvent};
ghost use Rattle.session_world.specs.Replays.{Replay, happens, running, task, task_with, turns, writes};
ghost use Rattle.session_world.specs.Staged.{Leaves, Stands};
ghost use Rattle.session_world.specs.declared.running.Task.TheVariants.{Answers};
ghost use Rattle.std.specs.Prelude.{◌≡◌, ◌≢◌, ◌∷◌, OnOk};

use crate::calls::{Calls, Peer};
use crate::stage::Stage;
use crate::telling::print_idles;
use crate::under_way::is_cut_off;
use client_wire::clients::{keep, take};
use lg_base::{Memory, Out};
use script_text::Event;
use std::alloc::Global;

/// What a session and its client go on with.
#[derive(Clone, Copy, Debug, PartialEq, Eq)]
pub enum Task {
    /// The session is answered calls of the account store.
    Answers,
    /// All bytes come to the client.
    GoesDown,
    /// All bytes of the client come to the session.
    GoesUp,
    /// The client's result is told, since its session has ended.
    CutsOff,
    /// Nothing.
    Rests,
}

/// The most turns of a run: a client hears at most six payloads, and each is followed by at most one of its own.
const MOST_TURNS: u32 = 24;

/// The first byte of COM_QUERY.
const QUERY: u8 = 0x03;

impl Stage {
    /// What a session that waits for no call and its client go on with.
    fn task_under_way(&self, number: u32) -> Task
        ensures { (r : Replay) → Stands self.now r → result ≡ task_with (r.world.places number) (r.clients number) }
    {
        let Some(held) = self.clients.get(&number) else {
            return Task::Rests;
        };
        if held.coming.has_bytes() {
            return Task::GoesDown;
        }
        if is_cut_off(self.state.is_over(number), held.result) {
            return Task::CutsOff;
        }
        if !self.state.is_there(number) {
            return Task::Rests;
        }
        if held.leaving.has_bytes() {
            Task::GoesUp
        } else {
            Task::Rests
        }
    }

    /// What a session and its client go on with.
    fn task(&self, number: u32) -> Task
        ensures { (r : Replay) → Stands self.now r → result ≡ task r number }
    {
        if self.state.waits(number) {
            Task::Answers
        } else {
            self.task_under_way(number)
        }
    }

    /// All bytes come to a client, or all of its own to its session, or its result is told.
    fn turn_client(
        &mut self,
        alloc: Global,
        number: u32,
        task: Task,
        out: &mut Out,
    ) -> Result<(), Memory>
        requires { task ≢ Answers }
        ensures { (r : Replay) → Stands self.old r → OnOk result (Leaves (turns r number task) self.new out.old out.new) }
    {
        let Some(held) = take(&mut self.clients, number) else {
            return Ok(());
        };
        let (coming, leaving) = (held.coming.len() as u64, held.leaving.len() as u64);
        match task {
            Task::GoesDown => self.hand_down(alloc, number, coming, held, out),
            Task::GoesUp => self.bring(alloc, number, leaving, held, out),
            Task::CutsOff => self.cut_off(number, held, out),
            Task::Answers | Task::Rests => keep(&mut self.clients, number, held),
        }
    }

    /// A turn of a run.
    fn turn(&mut self, alloc: Global, number: u32, out: &mut Out) -> Result<(), Memory>
        ensures { (r : Replay) → Stands self.old r → OnOk result (Leaves (turns r number (task r number)) self.new out.old out.new) }
    {
        match self.task(number) {
            Task::Answers => self.call(alloc, number, Calls::All, out),
            task => self.turn_client(alloc, number, task, out),
        }
    }

    /// A session and its client go on as long as something can be done.
    fn run(&mut self, alloc: Global, number: u32, out: &mut Out) -> Result<(), Memory>
        ensures { (r : Replay) → Stands self.old r → OnOk result (Leaves (running r number (task r number)) self.new out.old out.new) }
    {
        match self.task(number) {
            Task::Rests => return print_idles(out, number),
            _ => {}
        }
        'turns: for _turn in 0..MOST_TURNS {
            self.turn(alloc, number, out)?;
        }
        Ok(())
    }

    /// A client writes COM_QUERY.
    fn say(&mut self, alloc: Global, number: u32, text: &[u8], out: &mut Out) -> Result<(), Memory>
        ensures { (r : Replay) → Stands self.old r → OnOk result (Leaves (writes r number (0x03 ∷ text.now) (r.clients number)) self.new out.old out.new) }
    {
        let mut payload = Out::new(alloc);
        payload.byte(QUERY)?;
        payload.bytes(text)?;
        self.write(alloc, number, payload.as_slice(), out)
    }

    /// An event happens, and its lines are printed.
    pub fn happen(&mut self, alloc: Global, event: &Event, out: &mut Out) -> Result<(), Memory>
        requires { IsEvent event.now }
        ensures { (r : Replay) → Stands self.old r → OnOk result (Leaves (happens r event.now) self.new out.old out.new) }
    {
        match event {
            Event::Clock { reading } => {
                self.set_clock(*reading);
                Ok(())
            }
            Event::Admin { text } => self.administer(alloc, text.as_slice(), out),
            Event::Open { session } => self.open(alloc, *session, out),
            Event::Client {
                session,
                flags,
                user,
                secrets,
            } => self.begin(alloc, *session, *flags, user.as_slice(), secrets, out),
            Event::FromPeer { session, bytes } => self.from_script(
                alloc,
                *session,
                bytes.as_slice(),
                out,
            ),
            Event::Up { session, most } => self.up(alloc, *session, *most, out),
            Event::Down { session, most } => self.down(alloc, *session, *most, out),
            Event::Step { session } => self.call(alloc, *session, Calls::One, out),
            Event::Run { session } => self.run(alloc, *session, out),
            Event::Say { session, text } => self.say(alloc, *session, text.as_slice(), out),
            Event::Command { session, payload } => self.write(
                alloc,
                *session,
                payload.as_slice(),
                out,
            ),
            Event::Close { session } => self.leave(alloc, *session, Peer::Closed, out),
            Event::Cut { session } => self.leave(alloc, *session, Peer::Failed, out),
            Event::FailKeeper => self.fail_keeper(),
        }
    }
}
