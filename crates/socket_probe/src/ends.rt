//! Connections: to any socket, and to a door in the same process.

ghost use Rattle.std.specs.Prelude.{◌≡◌, false};

use lg_outside::{Dial, Link, UnixLink};
use server_outside::Door;
use server_sockets::UnixDoor;
use std::net::Net;
use std::rt::Files;
use std::time::Clock;
use std::{fs, io};

/// Connects a link, and prints how that ended.
pub fn dial<R: Print, L: Dial>(rt: &R, peer: &mut L, path: &str) -> io::Result<()> {
    match peer.dial(path) {
        Ok(()) => println!(rt; "ok"),
        Err(_) => {
            let faults = peer.faults();
            println!(rt; "failed {faults}")
        }
    }
}

/// What one end writes to the other.
const WORD: &[u8; 4] = b"word";

/// Reads a word of four bytes, and tells whether it is the one that was written.
fn reads_word<L: Link>(link: &mut L) -> bool
    requires { L.finished link.old ≡ false }
    ensures { L.finished link.new ≡ false }
{
    let mut room = [0u8; 4];
    match link.read(&mut room) {
        Ok(4) => &room == WORD,
        _ => false,
    }
}

/// Whether what is written at one end is read at the other.
fn ends_agree<D: Door, L: Dial>(door: &mut D, peer: &mut L, path: &str) -> bool
    requires { L.Link.finished peer.old ≡ false }
{
    if door.listen(path).is_err() || peer.dial(path).is_err() || peer.write_all(WORD).is_err() {
        return false;
    }
    match door.next() {
        Ok(Some(mut link)) => {
            let agree = reads_word(&mut link) && link.write_all(WORD).is_ok() && reads_word(peer);
            link.finish();
            agree && link.faults() == 0
        }
        _ => false,
    }
}

/// Prints whether both ends agree, and the socket's file is gone at the end.
pub fn meet<R: Files + Net + Clock + Print + AllocGlobal + Copy + Drop + Send>(
    rt: &R,
    path: &str,
) -> io::Result<()> {
    let Ok(mut door) = UnixDoor::new(rt.alloc(), *rt) else {
        return println!(rt; "memory");
    };
    let mut peer = UnixLink::new(*rt);
    let agree = ends_agree(&mut door, &mut peer, path);
    door.close();
    peer.finish();
    if agree && !fs::exists(rt, path)? {
        println!(rt; "ok")
    } else {
        println!(rt; "failed")
    }
}
