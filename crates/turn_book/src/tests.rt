//! Seats that take turns with a tape of numbers.

ghost use Rattle.std.specs.Prelude.{◌≡◌, ◌+◌, ◌<◌, ◌≤◌, ℕ, List, Some, length};
ghost use Rattle.turn_book.specs.Views.{first_view};
ghost use Rattle.turn_book.specs.Book.{view, IsOf};

use super::*;
use lg_base::Memory;
use std::alloc::Global;
use std::sync::Wait;
use std::thread;
use std::thread::Threads;

const EACH: u64 = 500;

#[derive(Drop)]
struct Tape {
    numbers: Vec<u64>,
}

impl Object for Tape {
    type Start = ();

    type Entry = u64;

    ghost start = { λ _. tt {0} };

    ghost entries = { λ t. t.numbers.items };

    ghost opening = { λ _ _. Unit {0} };
}

/// Writes the number, and answers its place.
impl Applies<u64> for Tape {
    type Reply = usize;

    ghost can = { λ _ _ _. Unit {0} };

    ghost makes = { λ _ _ number _. Some number };

    ghost answers = { λ _ xs _ _ place. place ≡ length xs };

    ghost refused = { λ _ _ _ _. Unit {0} };

    fn apply(&mut self, number: &mut u64) -> Result<usize, Memory> {
        let place = self.numbers.len();
        match self.numbers.push(*number) {
            Ok(()) => Ok(place),
            Err(_) => Err(Memory),
        }
    }

    ghost stays = { λ _ _ _ _ _. tt {0} };
}

/// A call that never has memory.
#[derive(Drop)]
struct Greedy;

impl Applies<Greedy> for Tape {
    type Reply = ();

    ghost use Rattle.std.specs.Prelude.{None};

    ghost can = { λ _ _ _. Unit {0} };

    ghost makes = { λ _ _ _ _. None };

    ghost answers = { λ _ _ _ _ _. Unit {0} };

    ghost refused = { λ _ _ _ _. Unit {0} };

    fn apply(&mut self, _call: &mut Greedy) -> Result<(), Memory> {
        Err(Memory)
    }

    ghost stays = { λ _ _ _ _ _. tt {0} };
}

fn blank(alloc: Global) -> Tape {
    Tape {
        numbers: Vec::new(alloc),
    }
}

// Writes the numbers from `first` on, a turn each.
fn write_all<O: Applies<u64, Reply = usize>, R: Wait>(
    rt: &R,
    book: &TurnBook<O>,
    mut seat: Seat<O>,
    first: u64,
) -> Seat<O>
    requires own { IsOf O.start book.now seat }
    requires can { (s : O.Start) (xs : List O.Entry) (number : ℕ) → O.can s xs number }
    requires small { first ≤ 1000 }
    ensures own { IsOf O.start book.now result }
{
    for i in 0..EACH {
        let mut number = first + i;
        let _ = book.turn(rt, &mut seat, &mut number);
    }
    seat
}

fn write_both<O: Applies<u64, Reply = usize> + Send, R: Threads + Wait + Sync>(
    rt: &R,
    book: &TurnBook<O>,
    one: Seat<O>,
    two: Seat<O>,
) -> (Seat<O>, Seat<O>)
    requires one { IsOf O.start book.now one }
    requires two { IsOf O.start book.now two }
    requires can { (s : O.Start) (xs : List O.Entry) (number : ℕ) → O.can s xs number }
    ensures one { IsOf O.start book.now result.0 }
    ensures two { IsOf O.start book.now result.1 }
{
    thread::join(
        rt,
        || write_all(rt, book, one, 0),
        || write_all(rt, book, two, EACH),
    )
}

#[test]
fn each_entry_of_two_threads_is_there_once(rt: HostRuntime) -> Result<(), Memory> {
    let alloc: Global = rt.alloc();
    let (book, mut seat) = TurnBook::new(alloc, blank(alloc))?;
    let other = book.split(&mut seat);
    let (mut seat, other) = write_both(&rt, &book, seat, other);
    book.meet(&mut seat, other);
    let Tape { mut numbers } = book.close(&mut seat).expect(&rt, "the object comes back");
    assert_eq!(rt; numbers.len(), 1000);
    numbers.sort()?;
    for i in 0..numbers.len() {
        assert_eq!(rt; numbers[i], i as u64);
    }
    Ok(())
}

#[test]
fn want_of_memory_adds_nothing(rt: HostRuntime) -> Result<(), Memory> {
    let alloc: Global = rt.alloc();
    let (book, mut seat) = TurnBook::new(alloc, blank(alloc))?;
    assert_eq!(rt; book.turn(&rt, &mut seat, &mut 7u64), Ok(0));
    assert_eq!(rt;
        book.turn(&rt, &mut seat, &mut Greedy),
        Err(TurnFault::Memory)
    );
    assert_eq!(rt; book.turn(&rt, &mut seat, &mut 8u64), Ok(1));
    let tape = book.close(&mut seat).expect(&rt, "the object comes back");
    assert_eq!(rt; tape.numbers.as_slice(), [7u64, 8].as_slice());
    Ok(())
}

#[test]
fn the_last_turn_is_the_last(rt: HostRuntime) -> Result<(), Memory> {
    let alloc: Global = rt.alloc();
    let (book, mut seat) = TurnBook::starting_at(alloc, (1 << 62) - 1, blank(alloc))?;
    assert_eq!(rt; book.turn(&rt, &mut seat, &mut 7u64), Ok(0));
    assert_eq!(rt;
        book.turn(&rt, &mut seat, &mut 8u64),
        Err(TurnFault::BookEnd)
    );
    let mut other = book.split(&mut seat);
    assert_eq!(rt;
        book.turn(&rt, &mut other, &mut 9u64),
        Err(TurnFault::BookEnd)
    );
    let tape = book.close(&mut seat).expect(&rt, "the object comes back");
    assert_eq!(rt; tape.numbers.as_slice(), [7u64].as_slice());
    Ok(())
}
