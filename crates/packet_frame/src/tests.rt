//! Packets by hand, among them one of more than a whole piece, and each fault.

use crate::frames::Frames;
use crate::packets::{FrameFault, Packet, Want};
use crate::writing::write_packet;
use lg_base::{Bytes, Memory, Out};
use std::alloc::{AllocError, Global};
use std::test::Fail;

/// The greatest payload of the tests that name no other.
const LIMIT: u32 = 50_331_645;

// ## Step by step

/// What a reader is asked, and what it has to answer.
#[derive(Clone, Copy)]
enum Step {
    Feed(&'static [u8], Result<usize, FrameFault>),
    /// The ids of the first and the last piece, the place and the length of the packet that is taken out.
    Take(Option<(u8, u8, u64, usize)>),
    Ready(bool),
    Held(u64),
    Missing(usize),
    Place(u64),
    Expect(Want),
}

/// Feeds a piece, where the place stays in its range.
fn feed(frames: &mut Frames, piece: &[u8]) -> Result<usize, FrameFault> {
    if frames.place() > 1 << 62 || piece.len() > 1 << 32 {
        return Err(FrameFault::Memory);
    }
    frames.feed(piece)
}

fn taken(frames: &mut Frames) -> Option<(u8, u8, u64, usize)> {
    match frames.take() {
        Some(packet) => {
            let length = packet.payload.as_slice().len();
            Some((packet.first, packet.last, packet.at, length))
        }
        None => None,
    }
}

fn expects(frames: &mut Frames, want: Want) -> bool {
    if frames.held() != 0 {
        return false;
    }
    frames.expect(want);
    true
}

fn answers(frames: &mut Frames, step: &Step) -> bool {
    match step {
        Step::Feed(piece, wanted) => feed(frames, piece) == *wanted,
        Step::Take(wanted) => taken(frames) == *wanted,
        Step::Ready(wanted) => frames.ready() == *wanted,
        Step::Held(wanted) => frames.held() == *wanted,
        Step::Missing(wanted) => frames.missing() == *wanted,
        Step::Place(wanted) => frames.place() == *wanted,
        Step::Expect(want) => expects(frames, *want),
    }
}

/// The number of the first step, from 0, that isn't answered so.
fn first_other(alloc: Global, limit: u8, want: Want, steps: &[Step]) -> Option<usize> {
    let mut frames = Frames::new(alloc, u32::from(limit), want);
    for (i, step) in steps.iter().enumerate() {
        if !answers(&mut frames, step) {
            return Some(i);
        }
    }
    None
}

const NO_BYTES: [Step; 5] = [
    Step::Feed(&[], Ok(0)),
    Step::Ready(false),
    Step::Take(None),
    Step::Held(0),
    Step::Place(0),
];

const BY_HALVES: [Step; 15] = [
    Step::Missing(4),
    Step::Feed(&[1, 0], Ok(2)),
    Step::Missing(2),
    Step::Feed(&[0, 0, 7, 1], Ok(2)),
    Step::Ready(false),
    Step::Held(4),
    Step::Missing(1),
    Step::Feed(&[7, 1], Ok(1)),
    Step::Ready(true),
    Step::Held(0),
    Step::Missing(0),
    Step::Feed(&[1], Ok(0)),
    Step::Take(Some((0, 0, 0, 1))),
    Step::Place(5),
    Step::Take(None),
];

const AT_THE_LIMIT: [Step; 1] = [Step::Feed(&[10, 0, 0, 0], Ok(4))];

const OVER_THE_LIMIT: [Step; 5] = [
    Step::Feed(&[11, 0, 0], Ok(3)),
    Step::Feed(&[0], Err(FrameFault::TooLarge { at: 0 })),
    Step::Feed(&[], Err(FrameFault::TooLarge { at: 0 })),
    Step::Feed(&[1, 2], Err(FrameFault::TooLarge { at: 0 })),
    Step::Take(None),
];

const IDS_THAT_WRAP: [Step; 5] = [
    Step::Feed(&[0, 0, 0, 255], Ok(4)),
    Step::Take(Some((255, 255, 0, 0))),
    Step::Feed(&[0, 0, 0, 0], Ok(4)),
    Step::Take(Some((0, 0, 4, 0))),
    Step::Feed(
        &[0, 0, 0, 0],
        Err(FrameFault::OutOfOrder {
            at: 8,
            want: 1,
            got: 0,
        }),
    ),
];

const ANOTHER_ID: [Step; 4] = [
    Step::Held(0),
    Step::Expect(Want::Any),
    Step::Feed(&[0, 0, 0, 9], Ok(4)),
    Step::Take(Some((9, 9, 0, 0))),
];

#[test]
fn readers_answer_step_by_step(rt: HostRuntime) {
    for (name, limit, want, steps) in [
        ("no bytes", 99, Want::Any, NO_BYTES.as_slice()),
        ("by halves", 99, Want::Exactly(0), BY_HALVES.as_slice()),
        ("at the limit", 10, Want::Any, AT_THE_LIMIT.as_slice()),
        ("over it", 10, Want::Any, OVER_THE_LIMIT.as_slice()),
        ("ids", 99, Want::Exactly(255), IDS_THAT_WRAP.as_slice()),
        ("another id", 99, Want::Exactly(3), ANOTHER_ID.as_slice()),
    ] {
        assert_eq!(rt; first_other(rt.alloc(), limit, want, steps), None, "{name}");
    }
}

// ## Whole pieces

/// The first fault or the packet of a whole stream, whose packets may begin with any id. It is fed in pieces of at
/// most `size`.
fn first_packet(alloc: Global, bytes: &[u8], size: usize) -> Result<Option<Packet>, FrameFault> {
    let mut frames = Frames::new(alloc, LIMIT, Want::Any);
    let mut rest = bytes;
    for _ in 0..=bytes.len() {
        if rest.is_empty() || frames.ready() {
            break;
        }
        let count = feed(&mut frames, rest.get(..size).unwrap_or(rest))?;
        rest = rest.get(count..).unwrap_or(&[]);
    }
    Ok(frames.take())
}

/// A whole piece of zeros with id 0, and the header of an empty piece with another id.
fn whole_piece(alloc: Global, id: u8) -> Result<Vec<u8>, AllocError> {
    let mut bytes = Vec::new(alloc);
    bytes.extend_from_slice(&[255, 255, 255, 0])?;
    bytes.resize(16_777_219, 0)?;
    bytes.extend_from_slice(&[0, 0, 0, id])?;
    Ok(bytes)
}

/// The ids, the place and the length of a packet.
fn told(packet: &Packet) -> (u8, u8, u64, usize) {
    let length = packet.payload.as_slice().len();
    (packet.first, packet.last, packet.at, length)
}

#[test]
fn a_whole_piece_is_continued_by_an_empty_one(rt: HostRuntime) -> Result<(), Fail> {
    let bytes = whole_piece(rt.alloc(), 1)?;
    let packet = first_packet(rt.alloc(), bytes.as_slice(), 65_536)?.ok_or("no packet")?;
    assert_eq!(rt; told(&packet), (0, 1, 0, 16_777_215));
    for size in [1, 16_777_223] {
        let other = first_packet(rt.alloc(), bytes.as_slice(), size)?.ok_or("no packet")?;
        assert!(rt; other == packet, "pieces of {size}");
    }
    Ok(())
}

#[test]
fn a_wrong_id_after_a_whole_piece_is_a_fault_there(rt: HostRuntime) -> Result<(), Fail> {
    let bytes = whole_piece(rt.alloc(), 5)?;
    let fault = FrameFault::OutOfOrder {
        at: 16_777_219,
        want: 1,
        got: 5,
    };
    let found = first_packet(rt.alloc(), bytes.as_slice(), 65_536);
    assert_eq!(rt; found, Err(fault));
    Ok(())
}

// ## Writing

/// What is written of a payload, and the id that comes then.
fn written(alloc: Global, first: u8, payload: &[u8]) -> Result<(u8, Bytes), Memory> {
    let mut out = Out::new(alloc);
    let next = write_packet(first, payload, &mut out)?;
    Ok((next, out.into_bytes()))
}

#[test]
fn packets_are_written(rt: HostRuntime) -> Result<(), Fail> {
    for (first, payload, next, wanted) in [
        (2, b"ok".as_slice(), 3, b"\x02\x00\x00\x02ok".as_slice()),
        (255, b"".as_slice(), 0, b"\x00\x00\x00\xff".as_slice()),
    ] {
        let (id, bytes) = written(rt.alloc(), first, payload)?;
        assert_eq!(rt; id, next);
        assert_eq!(rt; bytes.as_slice(), wanted);
    }
    Ok(())
}

#[test]
fn a_whole_piece_is_written_with_an_empty_one_behind(rt: HostRuntime) -> Result<(), Fail> {
    let whole = whole_piece(rt.alloc(), 1)?;
    let payload = whole.as_slice().get(4..16_777_219).unwrap_or(&[]);
    let (id, bytes) = written(rt.alloc(), 0, payload)?;
    assert_eq!(rt; id, 2);
    assert!(rt; bytes.as_slice() == whole.as_slice());
    Ok(())
}
