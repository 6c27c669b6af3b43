//! The packets of an input, a line each.
//!
//! MySQL client/server protocol documentation, "MySQL Packets".

ghost use Rattle.lg_outside.specs.Faults.{Rose};
ghost use Rattle.loginctl.specs.Frames.{AnswersFrames, IsListed, bad_line, end_line, packet_line};
ghost use Rattle.loginctl.specs.Listing.{HasRead, IsEnded, IsSteady, Stops};
ghost use Rattle.packet_frame.specs.Framing.{place_of};
ghost use Rattle.std.specs.Prelude.{◌≡◌, ℕ, ◌+◌, ◌<◌, ◌≤◌, ◌++◌, [], List, Option, length, IfErr, IfOk, OnOk, true, false};

use crate::printing::{add_number, print};
use crate::status::Status;
use lg_base::{Memory, Out};
use lg_outside::{Sink, Source};
use packet_frame::{FrameFault, Frames, Packet, Want};
use std::alloc::Global;

/// Bytes read at a time.
const PIECE: usize = 65_536;

/// The most bytes of an input.
const LONGEST_INPUT: u64 = 1_099_511_627_776;

/// The most bytes of a packet's payload.
const LONGEST_PAYLOAD: u32 = 50_331_645;

/// A reader of packets, how many it gave, and their lines that are still to be printed.
#[derive(Drop)]
struct Listing {
    frames: Frames,
    count: u64,
    lines: Out,
}

/// Adds the line of a packet.
#[tactic(auto, unfolding(crate::specs::Frames::packet_line))]
fn add_packet(lines: &mut Out, number: u64, packet: &Packet) -> Result<(), Memory>
    ensures { OnOk result (lines.new ≡ lines.old ++ packet_line number packet.now) }
{
    lines.bytes(b"packet ")?;
    add_number(lines, number)?;
    lines.bytes(b" at ")?;
    add_number(lines, packet.at)?;
    lines.bytes(b" seq ")?;
    add_number(lines, packet.first as u64)?;
    lines.bytes(b" length ")?;
    add_number(lines, packet.payload.as_slice().len() as u64)?;
    lines.byte(b'\n')
}

/// Adds the last line of an input that ends after a packet.
#[tactic(auto, unfolding(crate::specs::Frames::end_line))]
fn add_end(lines: &mut Out, count: u64) -> Result<(), Memory>
    ensures { OnOk result (lines.new ≡ lines.old ++ end_line count) }
{
    lines.bytes(b"end ")?;
    add_number(lines, count)?;
    lines.byte(b'\n')
}

/// Adds the last line of an input that is no packet at a place.
#[tactic(auto, unfolding(crate::specs::Frames::bad_line))]
fn add_bad(lines: &mut Out, at: u64) -> Result<(), Memory>
    ensures { OnOk result (lines.new ≡ lines.old ++ bad_line at) }
{
    lines.bytes(b"bad packet at ")?;
    add_number(lines, at)?;
    lines.byte(b'\n')
}

impl Listing {
    /// Nothing was read.
    fn new(alloc: Global) -> Listing
        ensures read { HasRead [] [] result }
        ensures steady { IsSteady result }
        ensures empty { result.lines ≡ [] }
        ensures start { place_of result.frames ≡ 0 }
    {
        Listing {
            frames: Frames::new(alloc, LONGEST_PAYLOAD, Want::Any),
            count: 0,
            lines: Out::new(alloc),
        }
    }

    /// Adds the lines of the packets that a piece of the input ends.
    fn read_piece(&mut self, piece: &[u8]) -> Result<(), FrameFault>
        requires steady { IsSteady self.old }
        requires in_place { place_of self.old.frames + length piece.now ≤ 1099511627776 }
        ensures ok { OnOk result (IsSteady self.new) }
        ensures read { (bytes written : List ℕ) → HasRead bytes written self.old →
            OnOk result (HasRead (bytes ++ piece.now) written self.new) }
        ensures stopped { (bytes written : List ℕ) → HasRead bytes written self.old →
            IfErr result (λ fault. Stops (bytes ++ piece.now) written fault self.new) }
    {
        let mut rest = piece;
        'pieces: while !rest.is_empty() {
            let count = match self.frames.feed(rest) {
                Ok(count) => count,
                Err(fault) => return Err(fault),
            };
            let (_, behind) = rest.split_at(count);
            rest = behind;
            if let Some(packet) = self.frames.take() {
                self.frames.expect(Want::Any);
                self.count += 1;
                if add_packet(&mut self.lines, self.count, &packet).is_err() {
                    return Err(FrameFault::Memory);
                }
            }
        }
        Ok(())
    }

    /// Adds what a further piece of the input prints. Where it shows that the input is bad, at a fault or past
    /// the limit, that ends with the last line. Answers whether it does.
    fn add_piece(&mut self, piece: &[u8]) -> Result<bool, Memory>
        requires steady { IsSteady self.old }
        requires in_place { place_of self.old.frames ≤ 1099511627776 }
        ensures good { (bytes written : List ℕ) → HasRead bytes written self.old →
            IfOk result (λ bad. bad ≡ false → IsSteady self.new × HasRead (bytes ++ piece.now) written self.new) }
        ensures within { IfOk result (λ bad. bad ≡ false → place_of self.old.frames + length piece.now ≤ 1099511627776) }
        ensures bad { (bytes written rest : List ℕ) → HasRead bytes written self.old →
            IfOk result (λ bad. bad ≡ true → IsListed ((bytes ++ piece.now) ++ rest) Status.BadInput (written ++ self.new.lines)) }
    {
        let room = LONGEST_INPUT - self.frames.place();
        let (within, past) = split_within(piece, room);
        match self.read_piece(within) {
            Ok(()) => {}
            Err(FrameFault::Memory) => return Err(Memory),
            Err(FrameFault::TooLarge { at }) => return self.add_last(at),
            Err(
                FrameFault::OutOfOrder {
                    at,
                    want: _,
                    got: _,
                },
            ) => return self.add_last(at),
        }
        if past.is_empty() {
            return Ok(false);
        }
        self.add_last(LONGEST_INPUT)
    }

    /// Adds the last line of a bad input, and answers that it is bad.
    fn add_last(&mut self, at: u64) -> Result<bool, Memory>
        ensures { IfOk result (λ bad. (bad ≡ true) × (self.new.lines ≡ self.old.lines ++ bad_line at)) }
    {
        add_bad(&mut self.lines, at)?;
        Ok(true)
    }

    /// Adds the last line where the input ends here, and answers the status that is due.
    fn add_ending(&mut self) -> Result<Status, Memory>
        requires steady { IsSteady self.old }
        ensures { (bytes written : List ℕ) → HasRead bytes written self.old → length bytes ≤ 1099511627776 →
            IfOk result (λ status. IsListed bytes status (written ++ self.new.lines)) }
    {
        let held = self.frames.held();
        if held == 0 {
            add_end(&mut self.lines, self.count)?;
            return Ok(Status::Done);
        }
        add_bad(&mut self.lines, self.frames.place() - held)?;
        Ok(Status::BadInput)
    }
}

/// The bytes of a piece for which there is room, and the others.
fn split_within(piece: &[u8], room: u64) -> (&[u8], &[u8])
    ensures joined { piece.now ≡ result.0.now ++ result.1.now }
    ensures within { length result.0.now ≤ room }
    ensures past { 0 < length result.1.now → length result.0.now ≡ room }
{
    if (piece.len() as u64) <= room {
        return (piece, &[]);
    }
    piece.split_at(room as usize)
}

/// Prints the last line where the input ends here.
fn print_ending<W: Sink>(listing: &mut Listing, out: &mut W) -> Status
    requires steady { IsSteady listing.old }
    ensures ends { (bytes written : List ℕ) → HasRead bytes written listing.old → length bytes ≤ 1099511627776 →
        IsEnded bytes written (W.written out.old) (W.written out.new) (Rose (W.fault_count out.old) (W.fault_count out.new)) result }
    ensures rising { W.fault_count out.old ≤ W.fault_count out.new }
{
    let status = match listing.add_ending() {
        Ok(status) => status,
        Err(Memory) => return Status::NoMemory,
    };
    print(out, listing.lines.as_slice(), status)
}

/// Prints a line for each packet of `input`, and a last line that says how it ended, and answers the status
/// that is due: `Done` after a packet, `BadInput` at a fault, within a packet or past the limit.
pub fn print_frames<S: Source, W: Sink>(alloc: Global, input: &mut S, out: &mut W) -> Status
    ensures answer { AnswersFrames (S.left input.old) (W.written out.old) (W.written out.new)
        (Rose (S.fault_count input.old) (S.fault_count input.new)) (Rose (W.fault_count out.old) (W.fault_count out.new)) result }
    ensures input { S.fault_count input.old ≤ S.fault_count input.new }
    ensures out { W.fault_count out.old ≤ W.fault_count out.new }
{
    let mut piece = [0u8; PIECE];
    let mut listing = Listing::new(alloc);
    'pieces: loop {
        let count = match input.read(&mut piece) {
            Ok(count) => count,
            Err(_) => return Status::InputFault,
        };
        if count == 0 {
            return print_ending(&mut listing, out);
        }
        match listing.add_piece(&piece[..count]) {
            Ok(true) => return print(out, listing.lines.as_slice(), Status::BadInput),
            Ok(false) => {}
            Err(Memory) => return Status::NoMemory,
        }
        match out.write_all(listing.lines.as_slice()) {
            Ok(()) => {}
            Err(_) => return Status::OutputFault,
        }
        listing.lines.truncate(0);
    }
}
