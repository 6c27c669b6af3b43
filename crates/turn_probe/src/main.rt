//! Takes turns of a book in many threads, for bench/turns to time. Each line of input is `THREADS TURNS`, and is
//! answered by `ok` once so many threads have taken so many turns each, or by `bad` where it isn't of this form.
//! Nothing is proved of it but that it is safe.
#![tactic(auto)]

ghost use Rattle.std.specs.Prelude.{◌<◌, List, []};
ghost use denote.Param.Send.{IsSend, IsSync};
ghost use Rattle.turn_book.specs.Book.{IsOf};

use lg_base::Memory;
use std::alloc::Global;
use std::sync::Wait;
use std::thread::Threads;
use std::{io, thread};
use turn_book::{Applies, Object, Seat, TurnBook};

/// Counts the turns.
#[derive(Drop)]
struct Tally {
    turns: u64,
}

#[derive(Drop)]
struct Step;

impl Object for Tally {
    type Start = ();

    type Entry = ();

    ghost start = { λ _. tt {0} };

    ghost entries = { λ _. [] };

    ghost opening = { λ _ _. Unit {0} };
}

impl Applies<Step> for Tally {
    type Reply = u64;

    ghost use Rattle.std.specs.Prelude.{None};

    ghost can = { λ _ _ _. Unit {0} };

    ghost makes = { λ _ _ _ _. None };

    ghost answers = { λ _ _ _ _ _. Unit {0} };

    ghost refused = { λ _ _ _ _. Unit {0} };

    fn apply(&mut self, _call: &mut Step) -> Result<u64, Memory> {
        self.turns = self.turns.wrapping_add(1);
        Ok(self.turns)
    }

    ghost stays = { λ _ _ _ _ _. tt {0} };
}

// Takes so many turns.
fn take_turns<O: Applies<Step, Reply = u64>, R: Wait>(
    rt: &R,
    book: &TurnBook<O>,
    mut seat: Seat<O>,
    turns: u64,
)
    requires own { IsOf O.start book.now seat }
    requires can { (s : O.Start) (xs : List O.Entry) (call : Step) → O.can s xs call }
{
    for _ in 0..turns {
        let _ = book.turn(rt, &mut seat, &mut Step);
    }
}

// Takes so many turns in each of two halves of the threads.
fn in_threads<O: Applies<Step, Reply = u64> + Send, R: Threads + Wait + Sync>(
    rt: &R,
    book: &TurnBook<O>,
    mut seat: Seat<O>,
    threads: u64,
    turns: u64,
)
    requires own { IsOf O.start book.now seat }
    requires can { (s : O.Start) (xs : List O.Entry) (call : Step) → O.can s xs call }
{
    if threads <= 1 {
        take_turns(rt, book, seat, turns);
        return;
    }
    let other = book.split(&mut seat);
    let low = threads / 2;
    let high = threads - low;
    let front = move ||
        requires { IsSync R.row × IsSend O.row × (0 < low) × IsOf O.start book.now seat × ((s : O.Start) (xs : List O.Entry) (call : Step) → O.can s xs call) }
    { in_threads(rt, book, seat, low, turns) };
    let back = move ||
        requires { IsSync R.row × IsSend O.row × (0 < high) × IsOf O.start book.now other × ((s : O.Start) (xs : List O.Entry) (call : Step) → O.can s xs call) }
    { in_threads(rt, book, other, high, turns) };
    thread::join(rt, front, back);
}

fn run<R: Threads + Wait + Sync>(rt: &R, alloc: Global, line: &str) -> Option<()> {
    let (threads, turns) = line.split_once(' ')?;
    let threads = threads.parse::<u64>().ok()?;
    let turns = turns.parse::<u64>().ok()?;
    let (book, seat) = TurnBook::new(alloc, Tally { turns: 0 }).ok()?;
    in_threads(rt, &book, seat, threads, turns);
    Some(())
}

fn main(rt: HostRuntime) -> io::Result<()> {
    for line in rt.lines(rt.alloc()) {
        let line = line?;
        match run(&rt, rt.alloc(), line.as_str()) {
            Some(()) => println!(rt; "ok")?,
            None => println!(rt; "bad")?,
        }
    }
    Ok(())
}
