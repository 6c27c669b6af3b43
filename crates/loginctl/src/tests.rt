//! Runs over streams and a link in memory whose calls fail in turn: the status, and what is printed before. Runs in which
//! nothing fails are those of tests/replay and tests/logins, on the built program.

use crate::tool::run_tool;
use lg_base::{Bytes, Items, Memory};
use lg_outside::{MemoryLink, MemorySink, MemorySource};
use std::alloc::{AllocError, Global};
use std::process::Abort;
use std::test::Fail;

const USAGE: &[u8] =
    b"usage: loginctl replay [--generate N] | login --socket PATH --user NAME [--password WORD] [--factor2 WORD] [--factor3 WORD] [--clear] [--expired] | frames\n";

/// A server that greets, asks for the password and lets the client in.
const SENT: &[u8] =
    b"\x4f\x00\x00\x00\x0a8.0.0-login\x00\x01\x00\x00\x0000000000\x00\x08\xa2\xff\x02\x00\x78\x10\x15\x00\x00\x00\x00\x00\x00\x00\x00\x00\x00000000000001\x00caching_sha2_password\x00\x02\x00\x00\x02\x01\x04\x07\x00\x00\x04\x00\x00\x00\x02\x00\x00\x00";

const NAT: &[&str] = &[
    "login",
    "--socket",
    "s",
    "--user",
    "nat",
    "--password",
    "sesame",
];

/// A run whose read, write and call of the link of these numbers fail, where no call has the number 0.
type Failing = [u64; 3];

/// Words, input, the calls that fail, the room of the output, the status, and what is printed.
type Trial = (
    &'static [&'static str],
    &'static [u8],
    Failing,
    usize,
    u8,
    &'static [u8],
);

const TRIALS: &[Trial] = &[
    // A script is read in two reads, the second of which finds the end.
    (&["replay"], b"end\n", [1, 0, 0], 9, 4, b""),
    (&["replay"], b"end\n", [2, 0, 0], 9, 4, b""),
    (&["replay"], b"end\n", [3, 2, 1], 9, 0, b"end 0\n"),
    (&["replay"], b"end\n", [0, 1, 0], 9, 5, b""),
    (&["replay"], b"end\n", [0, 0, 0], 5, 5, b""),
    (
        &["replay", "--generate", "4294967296"],
        b"",
        [1, 2, 1],
        255,
        2,
        USAGE,
    ),
    (&[], b"", [0, 1, 0], 9, 5, b""),
    (&[], b"", [0, 0, 0], 9, 5, b""),
    (&[], b"", [1, 2, 1], 255, 2, USAGE),
    // The link is called nine times: it is dialled, read and written.
    (NAT, b"", [0, 0, 1], 99, 4, b"linkfault\n"),
    (NAT, b"", [0, 0, 2], 99, 4, b"linkfault\n"),
    (NAT, b"", [0, 0, 3], 99, 4, b"linkfault\n"),
    (NAT, b"", [0, 0, 4], 99, 4, b"linkfault\n"),
    (NAT, b"", [0, 0, 5], 99, 4, b"linkfault\n"),
    (NAT, b"", [0, 0, 6], 99, 4, b"linkfault\n"),
    (NAT, b"", [0, 0, 7], 99, 4, b"linkfault\n"),
    (NAT, b"", [0, 0, 8], 99, 4, b"linkfault\n"),
    (NAT, b"", [0, 0, 9], 99, 4, b"linkfault\n"),
    (NAT, b"", [1, 2, 10], 99, 0, b"opened\n"),
    (NAT, b"", [0, 1, 0], 99, 5, b""),
];

/// What `frames` prints of three packets of 40,000 bytes, which are read in two pieces.
const LISTED: &[u8] = b"packet 1 at 0 seq 0 length 40000\n\
packet 2 at 40004 seq 7 length 40000\n\
packet 3 at 80008 seq 9 length 40000\n\
end 3\n";

/// How much of it is printed where the first, the second or the third read or write fails, and the status of either; there is
/// no fourth one.
const BEFORE_EACH_CALL: &[(u64, usize, u8, u8)] = &[
    (1, 0, 4, 5),
    (2, 33, 4, 5),
    (3, 107, 4, 5),
    (4, 113, 0, 0),
];

fn three_packets(alloc: Global) -> Result<Vec<u8>, AllocError> {
    let mut bytes = vec![in alloc; 0u8; 120_012]?;
    bytes[0] = 0x40;
    bytes[1] = 0x9c;
    bytes[40_004] = 0x40;
    bytes[40_005] = 0x9c;
    bytes[40_007] = 7;
    bytes[80_008] = 0x40;
    bytes[80_009] = 0x9c;
    bytes[80_011] = 9;
    Ok(bytes)
}

fn strings(alloc: Global, words: &[&str]) -> Result<Vec<String>, Memory> {
    let mut held = Vec::new(alloc);
    for word in words {
        held.push(String::from_str(alloc, word)?)?;
    }
    Ok(held)
}

/// The number of the one call that fails.
fn one(alloc: Global, call: u64) -> Result<Items<u64>, Memory> {
    Ok(Items::from_vec(Vec::from_slice(alloc, &[call])?))
}

/// Runs over streams in memory and a link to a local server: the status, and what was printed.
fn run(
    alloc: Global,
    words: &[&str],
    input: &[u8],
    failing: Failing,
    room: usize,
) -> Result<(u8, Bytes), Memory> {
    let [read, write, call] = failing;
    let words = strings(alloc, words)?;
    let mut input = MemorySource::new(Bytes::copy(alloc, input)?, one(alloc, read)?);
    let mut out = MemorySink::new(alloc, room, one(alloc, write)?)?;
    let mut link = MemoryLink::new(
        alloc,
        Bytes::copy(alloc, SENT)?,
        4096,
        true,
        one(alloc, call)?,
    )?;
    let status = run_tool(alloc, words.as_slice(), &mut input, &mut out, &mut link);
    Ok((status.code(), Bytes::copy(alloc, out.written())?))
}

#[test]
fn a_call_that_fails_ends_the_run(rt: HostRuntime) -> Result<(), Fail> {
    let alloc = rt.alloc();
    for (words, input, failing, room, status, printed) in TRIALS {
        let (ended, text) = run(alloc, words, input, *failing, *room)?;
        assert_eq!(rt; ended, *status);
        assert_eq!(rt; text.as_slice(), *printed);
    }
    Ok(())
}

/// Where the input fails, the packets before are listed; where the output does, the lines before are there.
#[test]
fn packets_are_listed_to_the_call_that_fails(rt: HostRuntime) -> Result<(), Fail> {
    let alloc = rt.alloc();
    let packets = three_packets(alloc)?;
    for (call, length, read_fails, write_fails) in BEFORE_EACH_CALL {
        let (status, text) = run(alloc, &["frames"], packets.as_slice(), [*call, 0, 0], 4096)?;
        assert_eq!(rt; status, *read_fails);
        assert_eq!(rt; Some(text.as_slice()), LISTED.get(..*length));
        let (status, text) = run(alloc, &["frames"], packets.as_slice(), [0, *call, 0], 4096)?;
        assert_eq!(rt; status, *write_fails);
        assert_eq!(rt; Some(text.as_slice()), LISTED.get(..*length));
    }
    Ok(())
}
