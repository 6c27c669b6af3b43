//! Packets as bytes, and bytes that are kept.

use crate::{Found, Inbox, Queue, add_packet, add_packets};
use lg_base::{Bytes, Items, Memory, Out};
use packet_frame::FrameFault;
use std::alloc::Global;
use std::test::Fail;

/// The header that stands at a place.
fn header_at(text: &[u8], at: usize) -> &[u8] {
    let rest = &text[at.min(text.len())..];
    &rest[..rest.len().min(4)]
}

#[test]
fn a_payload_of_a_whole_piece_is_followed_by_an_empty_one(rt: HostRuntime) -> Result<(), Fail> {
    let alloc = rt.alloc();
    let payload = vec![in alloc; 7u8; 16_777_215]?;
    let mut out = Out::new(alloc);
    assert_eq!(rt; add_packet(&mut out, 255, payload.as_slice())?, 1);
    assert_eq!(rt; out.as_slice().len(), 16_777_223);
    assert_eq!(rt;
        header_at(out.as_slice(), 0),
        b"\xff\xff\xff\xff".as_slice()
    );
    assert_eq!(rt;
        header_at(out.as_slice(), 16_777_219),
        b"\x00\x00\x00\x00".as_slice()
    );
    Ok(())
}

#[test]
fn packets_have_rising_ids(rt: HostRuntime) -> Result<(), Fail> {
    let alloc = rt.alloc();
    let mut payloads = Items::new(alloc);
    payloads.push(Bytes::copy(alloc, b"ab")?)?;
    payloads.push(Bytes::copy(alloc, b"")?)?;
    let mut out = Out::new(alloc);
    add_packets(&mut out, 255, payloads.as_slice())?;
    assert_eq!(rt;
        out.as_slice(),
        b"\x02\x00\x00\xffab\x00\x00\x00\x00".as_slice()
    );
    Ok(())
}

/// The payload of the packet at the front, if there is one.
fn taken(alloc: Global, inbox: &mut Inbox, want: u8) -> Result<Option<Bytes>, Memory> {
    match inbox.take(alloc, want)? {
        Found::Packet(packet) => Ok(Some(packet.payload)),
        _ => Ok(None),
    }
}

/// The fault at the front, if there is one.
fn fault(alloc: Global, inbox: &mut Inbox, want: u8) -> Result<Option<FrameFault>, Memory> {
    match inbox.take(alloc, want)? {
        Found::Fault(fault) => Ok(Some(fault)),
        _ => Ok(None),
    }
}

#[test]
fn an_inbox_gives_a_packet_once_it_is_whole(rt: HostRuntime) -> Result<(), Fail> {
    let alloc = rt.alloc();
    let mut inbox = Inbox::new(alloc);
    inbox.add(b"\x02\x00\x00\x00a")?;
    assert!(rt; taken(alloc, &mut inbox, 0)?.is_none());
    inbox.add(b"b\x01\x00\x00\x05c")?;
    let payload = taken(alloc, &mut inbox, 0)?;
    assert_eq!(rt; payload, Some(Bytes::copy(alloc, b"ab")?));
    let wrong = FrameFault::OutOfOrder {
        at: 6,
        want: 1,
        got: 5,
    };
    assert_eq!(rt; fault(alloc, &mut inbox, 1)?, Some(wrong));
    assert_eq!(rt; inbox.len(), 5);
    Ok(())
}

#[test]
fn a_queue_keeps_the_order(rt: HostRuntime) -> Result<(), Fail> {
    let mut queue = Queue::new(rt.alloc());
    queue.add(b"abc")?;
    queue.skip(1);
    queue.add(b"de")?;
    assert_eq!(rt; queue.front(3), b"bcd".as_slice());
    queue.skip(9);
    assert!(rt; !queue.has_bytes());
    Ok(())
}
