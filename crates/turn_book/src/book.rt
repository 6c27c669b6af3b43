//! The calls of a book.

ghost use Rattle.std.specs.Prelude.{◌≡◌, ◌≢◌, ◌+◌, ◌<◌, ◌≤◌, ◌^◌, ◌++◌, true, false, List, [], ◌∷◌, map, length, Some, Ok, Err, IfSome, IfNone, IfOk, IsSome, OnErr, option_to_list};
ghost use Rattle.turn_book.specs.declared.view.Stage.TheVariants.{Idle, Waiting, Holding};
ghost use Rattle.turn_book.specs.declared.object.TurnFault.{TurnFault};
ghost use Rattle.turn_book.specs.Views.{CarriesAll, Extends, entry_of, entries_seen, first_view, opened_at, finished, mine, waiting, left, right, left_behind, resting};
ghost use Rattle.turn_book.specs.Turns.{HasRoom};
ghost use Rattle.turn_book.specs.Steps.{Took};
ghost use Rattle.turn_book.specs.Book.{view, began, IsOf, IsReady, IsPassed, Applied, Ended, Served, Declined, Joined, HasOpenTurn};

use crate::object::{Applies, Object, TurnFault};
use crate::rule::{Branches, Draw, Find, HandOver, Look, Meets, Opened, Pass, Tell, Unmade};
use crate::seat::{Place, Seat, TurnBook};
use atomic_table::Table;
use lg_base::Memory;
use std::alloc::Global;
use std::snapshot::Snapshot;
use std::sync::Wait;
use std::thread;
use std::time::Duration;

// The words of the table, and its slot.
const NEXT: usize = 0;

const SERVING: usize = 1;

const OBJECT: usize = 0;

/// How many turns a book has.
const END: u64 = 1 << 62;

// So many seats next in line look often; the others sleep until their turn is near.
const NEAR: u64 = 8;
// A seat next in line looks so often before each sleep.
const LOOKS: u32 = 100;
// The longest sleep, and what a turn that is still ahead adds to one, in microseconds.
const LONGEST: u64 = 1000;

const A_TURN: u64 = 8;

impl<O: Object> TurnBook<O> {
    /// A book, and its first seat, which has seen the list that the object stands for.
    pub fn new(alloc: Global, object: O) -> Result<(TurnBook<O>, Seat<O>), Memory>
        requires { O.opening (O.start object) (O.entries object) }
        ensures own { IfOk result (λ r. IsOf O.start r.0 r.1) }
        ensures began { IfOk result (λ r. began O.start r.0 ≡ O.start object) }
        ensures seat { IfOk result (λ r. view r.1 ≡ first_view (O.start object) (O.entries object)) }
    {
        TurnBook::starting_at(alloc, 0, object)
    }

    /// Splits a seat off, which has seen as much, made nothing and drawn nothing.
    pub fn split(&self, seat: &mut Seat<O>) -> Seat<O>
        requires own { IsOf O.start self.now seat.old }
        ensures own { IsOf O.start self.now seat.new × IsOf O.start self.now result }
        ensures old { view seat.new ≡ left (view seat.old) }
        ensures new { view result ≡ right (view seat.old) }
        ensures unmade { mine (view result) ≡ [] }
    {
        // This step changes nothing: it tells the seat that the number split off next has made no entry.
        self.table.shared.load::<Unmade>(&mut seat.place, NEXT);
        Seat {
            place: self.table.shared.split_seat::<Branches>(&mut seat.place),
        }
    }

    /// Takes another seat in. The seat has then seen what either had seen, and carries the numbers of both.
    pub fn meet(&self, seat: &mut Seat<O>, other: Seat<O>)
        requires own { IsOf O.start self.now seat.old }
        requires other { IsOf O.start self.now other }
        ensures own { IsOf O.start self.now seat.new }
        ensures joined { Joined (view seat.old) (view other) (view seat.new) }
    {
        self.join(&mut seat.place, other.into_place());
    }

    /// Waits for a turn, and has the object serve the call. The seat has then seen the whole list at that
    /// place, the call's own entry at its end. Each answer but `BookEnd` took one turn; that one comes exactly
    /// where all were drawn, and from then on. The object alone can be out of memory.
    pub fn turn<C, R: Wait>(
        &self,
        rt: &R,
        seat: &mut Seat<O>,
        call: &mut C,
    ) -> Result<<O as Applies<C>>::Reply, TurnFault>
    where
        O: Applies<C>,
        requires own { IsOf O.start self.now seat.old }
        requires can { O.can (began O.start self.now) (entries_seen (view seat.old)) call.old }
        ensures own { IsOf O.start self.now seat.new }
        ensures ok { IfOk result (λ r. Served (began O.start self.now) (view seat.old) call.old call.new O.makes O.answers (view seat.new) r) }
        ensures memory { result ≡ Err TurnFault.Memory → Declined (began O.start self.now) (view seat.old) call.old call.new O.refused (view seat.new) }
        ensures book_end { result ≡ Err TurnFault.BookEnd → Ended (view seat.old) (view seat.new) × (call.new ≡ call.old) }
    {
        self.turn_at(rt, &mut seat.place, call)
    }

    /// Takes the book apart. The object comes back but where a drawn turn wasn't passed on, which can't be
    /// where the seat carries all numbers. The seat keeps what it has seen, and has no number any more.
    pub fn close(self, seat: &mut Seat<O>) -> Option<O>
        requires own { IsOf O.start self seat.old }
        ensures some { IfSome result (λ o. ((rest : List O.Entry) × (O.entries o ≡ entries_seen (view seat.old) ++ rest)) × (O.start o ≡ began O.start self)) }
        ensures all { CarriesAll (view seat.old).carried → IsSome result × IfSome result (λ o. O.entries o ≡ entries_seen (view seat.old)) }
        ensures none { IfNone result (HasOpenTurn O.start O.entries O.opening (view seat.old)) }
        ensures drawn { CarriesAll (view seat.old).carried → (view seat.old).ended ≡ true → (view seat.old).drawn ≡ 2 ^ 62 }
        ensures seat { view seat.new ≡ left_behind (view seat.old) }
    {
        let hand = self.table.shared.split_seat::<HandOver>(&mut seat.place);
        let mut closed = self.table.close_with(hand);
        let next = closed.word(NEXT);
        let serving = closed.word(SERVING);
        let object = closed.take(OBJECT);
        closed.free();
        if next == serving { Some(object) } else { None }
    }

    // A book of which `drawn` turns count as drawn, and passed on with no entry, by its first seat.
    pub(crate) fn starting_at(
        alloc: Global,
        drawn: u64,
        object: O,
    ) -> Result<(TurnBook<O>, Seat<O>), Memory>
        requires opening { O.opening (O.start object) (O.entries object) }
        requires drawn { drawn ≤ 2 ^ 62 }
        ensures own { IfOk result (λ r. IsOf O.start r.0 r.1) }
        ensures began { IfOk result (λ r. began O.start r.0 ≡ O.start object) }
        ensures seat { IfOk result (λ r. view r.1 ≡ opened_at drawn (first_view (O.start object) (O.entries object))) }
    {
        let about = Opened {
            object: Snapshot::of(&object),
            drawn,
        };
        let mut slots = Vec::new(alloc);
        slots.push(object)?;
        match Table::new(alloc, &[drawn, drawn], slots, &about) {
            Ok((table, place)) => Ok((TurnBook { table }, Seat { place })),
            Err(refused) => {
                drop(refused);
                Err(Memory)
            }
        }
    }

    fn turn_at<C, R: Wait>(
        &self,
        rt: &R,
        place: &mut Place<O>,
        call: &mut C,
    ) -> Result<<O as Applies<C>>::Reply, TurnFault>
    where
        O: Applies<C>,
        requires ready { IsReady self.now.table.shared.table_id place.old }
        requires begun { place.old.me.0.start ≡ Some (began O.start self.now) }
        requires can { O.can (began O.start self.now) (entries_seen place.old.me.0) call.old }
        ensures ready { IsReady self.now.table.shared.table_id place.new }
        ensures ok { IfOk result (λ r. Served (began O.start self.now) place.old.me.0 call.old call.new O.makes O.answers place.new.me.0 r) }
        ensures memory { result ≡ Err TurnFault.Memory → Declined (began O.start self.now) place.old.me.0 call.old call.new O.refused place.new.me.0 }
        ensures book_end { result ≡ Err TurnFault.BookEnd → Ended place.old.me.0 place.new.me.0 × (call.new ≡ call.old) }
    {
        let Some(ticket) = self.draw(rt, place) else {
            return Err(TurnFault::BookEnd);
        };
        self.take(rt, place, ticket);
        let result = self.apply(place, call);
        self.pass(place, ticket);
        match result {
            Ok(reply) => Ok(reply),
            Err(Memory) => Err(TurnFault::Memory),
        }
    }

    // Draws a ticket: none where no turn is left.
    fn draw<R: Wait>(&self, rt: &R, place: &mut Place<O>) -> Option<u64>
        requires ready { IsReady self.now.table.shared.table_id place.old }
        ensures table { place.new.table_id ≡ place.old.table_id }
        ensures some { IfSome result (λ t. (t < 2 ^ 62) × (place.new.me ≡ (waiting t place.old.me.0, [])) × (place.old.me.0.ended ≡ false)) }
        ensures none { IfNone result (place.new.me ≡ (finished place.old.me.0, [])) }
    {
        let shared = &self.table.shared;
        let mut next = shared.load::<Find>(place, NEXT);
        for _ in rt.forever() {
            if next == END {
                return None;
            }
            let found = shared.compare_exchange::<Draw>(place, NEXT, next, next + 1);
            if found == next {
                return Some(next);
            }
            next = found;
        }
        unreachable!()
    }

    // Waits until the ticket is served, and takes the object.
    fn take<R: Wait>(&self, rt: &R, place: &mut Place<O>, ticket: u64)
        requires table { place.old.table_id ≡ self.now.table.shared.table_id }
        requires waits { (place.old.me.0.stage ≡ Waiting ticket) × (place.old.me.1 ≡ []) × (0 < length place.old.me.0.carried) }
        ensures table { place.new.table_id ≡ place.old.table_id }
        ensures took { Took O.start O.entries O.opening ticket place.old.me place.new.me }
    {
        let mut looks = 0u32;
        for _ in rt.forever() {
            let served = self.table.shared.load::<Look>(place, SERVING);
            if served == ticket {
                return;
            }
            self.rest(rt, served, ticket.saturating_sub(served), looks);
            looks = looks.wrapping_add(1);
        }
        unreachable!()
    }

    // Lets other threads run. A seat next in line looks on, and after so many looks sleeps once, for a time that
    // doubles up to the longest; a seat with more turns ahead of it sleeps by their number. A sleep ends early where
    // the served ticket has changed before it begins.
    fn rest<R: Wait>(&self, rt: &R, served: u64, ahead: u64, looks: u32) {
        let is_near = ahead <= NEAR;
        if is_near && looks % (LOOKS + 1) < LOOKS {
            thread::yield_now();
            return;
        }
        let sleep = if is_near {
            1u64 << (looks / (LOOKS + 1)).min(10)
        } else {
            (ahead - NEAR).min(LONGEST) * A_TURN
        };
        self.table.shared.park_timeout(
            rt,
            SERVING,
            (served % (1 << 32)) as u32,
            Duration::from_micros(sleep.min(LONGEST)),
        );
    }

    // Has the object that the seat holds serve the call.
    fn apply<C>(
        &self,
        place: &mut Place<O>,
        call: &mut C,
    ) -> Result<<O as Applies<C>>::Reply, Memory>
    where
        O: Applies<C>,
        requires table { place.old.table_id ≡ self.now.table.shared.table_id }
        requires held { (y : O) × (place.old.me.1 ≡ (0, y) ∷ []) × O.can (O.start y) (O.entries y) call.old × HasRoom O.opening (O.start y) (O.entries y) }
        ensures table { place.new.table_id ≡ place.old.table_id }
        ensures held { (y : O) → place.old.me.1 ≡ (0, y) ∷ [] → (z : O) × (place.new.me ≡ (place.old.me.0, (0, z) ∷ [])) × Applied O.start O.entries O.makes O.answers O.refused y call.old call.new z result }
    {
        let object = place.slot_mut(&self.table.shared, OBJECT);
        object.apply(call)
    }

    // Gives the object back and passes the turn on.
    fn pass(&self, place: &mut Place<O>, ticket: u64)
        requires table { place.old.table_id ≡ self.now.table.shared.table_id }
        requires held { (y : O) × (place.old.me.1 ≡ (0, y) ∷ []) × IsPassed O.start O.entries ticket place.old.me.0 y }
        requires ticket { ticket < 2 ^ 62 }
        ensures table { place.new.table_id ≡ place.old.table_id }
        ensures passed { (y : O) → place.old.me.1 ≡ (0, y) ∷ [] → place.new.me ≡ (resting (O.entries y) place.old.me.0, []) }
    {
        self.table.shared.store::<Pass>(place, SERVING, ticket + 1);
    }

    fn join(&self, place: &mut Place<O>, other: Place<O>)
        requires one { IsReady self.now.table.shared.table_id place.old }
        requires two { IsReady self.now.table.shared.table_id other }
        ensures ready { IsReady self.now.table.shared.table_id place.new }
        ensures joined { Joined place.old.me.0 other.me.0 place.new.me.0 }
    {
        self.table.shared.join_seat::<Meets>(place, other);
        self.table.shared.load::<Tell>(place, NEXT);
    }
}
