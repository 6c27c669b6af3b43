//! A door whose links write back what they read, each in a thread of its own.

ghost use Rattle.std.specs.Prelude.{◌≡◌, false, is_none};

use lg_outside::Link;
use server_outside::Door;
use server_sockets::{StreamLink, UnixDoor};
use std::net::Net;
use std::rt::Files;
use std::thread::{JoinHandle, Threads};
use std::time::Clock;
use std::{io, thread};

/// Writes back what is read until the peer ends or the link fails, and tells whether it failed.
fn write_back<L: Link>(link: &mut L) -> bool
    requires { L.finished link.old ≡ false }
{
    let mut room = [0u8; 1024];
    'reads: for _ in 0..u64::MAX {
        match link.read(&mut room) {
            Ok(0) => return false,
            Ok(count) => {
                if link.write_all(&room[..count]).is_err() {
                    return true;
                }
            }
            Err(_) => return true,
        }
    }
    true
}

/// Serves a link, and prints how it ended.
fn serve<R: Clock + Print + Drop>(rt: R, link: StreamLink<R>, number: u64) -> StreamLink<R>
    requires { is_none link.socket ≡ false }
{
    let mut link = link;
    let has_failed = write_back(&mut link);
    link.finish();
    let _ = if has_failed {
        println!(rt; "end {number} failed")
    } else {
        println!(rt; "end {number} closed")
    };
    link
}

/// Serves a link in a thread of its own, or here where none can be started.
fn serve_apart<R: Clock + Print + Threads + Copy + Drop + Send + 'static>(
    rt: &R,
    link: StreamLink<R>,
    number: u64,
) -> Option<JoinHandle<StreamLink<R>>>
    requires { is_none link.socket ≡ false }
{
    let own = *rt;
    let job = move ||
        requires { is_none link.socket ≡ false }
    { serve(own, link, number) };
    match thread::spawn(rt, job) {
        Ok(handle) => Some(handle),
        Err(refused) => {
            let job = refused.value;
            let _ = job();
            None
        }
    }
}

/// Opens a door, takes its links until it is closed, and gives them back.
pub fn keep_door<
    R: Files + Net + Clock + Print + AllocGlobal + Threads + Copy + Drop + Send + 'static,
>(rt: &R, path: &str) -> io::Result<()> {
    let Ok(mut door) = UnixDoor::new(rt.alloc(), *rt) else {
        return println!(rt; "memory");
    };
    let mut handles = Vec::new(rt.alloc());
    if door.listen(path).is_ok() {
        println!(rt; "open")?;
        for number in 1..u64::MAX {
            match door.next() {
                Ok(Some(link)) => {
                    if let Some(handle) = serve_apart(rt, link, number) {
                        handles.push(handle)?;
                    }
                }
                Ok(None) => {
                    println!(rt; "closed")?;
                    break;
                }
                Err(_) => break,
            }
        }
    }
    let faults = door.faults();
    if faults > 0 {
        println!(rt; "failed {faults}")?;
    }
    door.close();
    for handle in handles {
        door.done(handle.join(rt));
    }
    Ok(())
}
