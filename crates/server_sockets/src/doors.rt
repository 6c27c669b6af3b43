//! A door at a Unix socket. It tells nothing of its links.

ghost use Rattle.lg_outside.specs.Faults.{Rose, counted};
ghost use Rattle.lg_outside.specs.Traffic.{untold};
ghost use Rattle.server_outside.specs.Halls.{HasGiven, IsUnused, Lets, TakesBack};
ghost use Rattle.server_sockets.specs.Counts.{count_after, untold_hall};
ghost use Rattle.server_sockets.specs.Finding.{IsOpen};
ghost use Rattle.std.specs.Prelude.{◌≡◌, ◌≤◌, IfOk, IfSome, IsSome, None, Ok, OnErr, OnOk, false, is_err, is_none, true};

use crate::links::StreamLink;
use crate::places::{SocketFile, listen_at};
use crate::rooms::Rooms;
use crate::signals::is_told_to_end;
use lg_base::Memory;
use lg_outside::Failed;
use server_outside::Door;
use std::alloc::Global;
use std::io::{self, ErrorKind, Write};
use std::net::Net;
use std::os::unix::net::{UnixListener, UnixStream};
use std::rt::Files;
use std::time::{Clock, Duration};

/// What a peer is told for which there is no room: the packet 0 with error 1040, in the protocol's form before the
/// greeting.
const TOO_MANY: &[u8] = b"\x1d\x00\x00\x00\xff\x10\x04#08004Too many connections";

/// How often the door looks whether it is to close, in milliseconds.
const TURN: u64 = 100;

/// How long it waits where the system has no descriptor or no memory for a connection, in milliseconds.
const PAUSE: u64 = 100;

/// A listener, and the file of its socket.
#[derive(Drop)]
struct Listening {
    listener: UnixListener,
    file: SocketFile,
    looked: Duration,
}

/// A door at a Unix socket, once it was opened. It is closed where the file of its socket was removed, and where TERM or INT
/// is pending for the process.
#[derive(Drop)]
pub struct UnixDoor<R> {
    rt: R,
    rooms: Rooms,
    listening: Option<Listening>,
    is_closed: bool,
    faults: u64,
}

impl<R> UnixDoor<R> {
    /// A door that isn't opened yet. Until it is, `next` fails.
    pub fn new(alloc: Global, rt: R) -> Result<UnixDoor<R>, Memory>
    where
        R: Drop,
        ensures { IfOk result (λ door. (door.listening ≡ None) × (door.is_closed ≡ false) × (door.faults ≡ 0)) }
    {
        let rooms = Rooms::new(alloc)?;
        Ok(UnixDoor {
            rt,
            rooms,
            listening: None,
            is_closed: false,
            faults: 0,
        })
    }

    /// Counts a failure.
    fn fail(&mut self) -> Failed
        ensures count { self.new.faults ≡ counted self.old.faults }
        ensures rising { self.old.faults ≤ self.new.faults }
        ensures closed { self.new.is_closed ≡ self.old.is_closed }
        ensures listening { self.new.listening ≡ self.old.listening }
    {
        self.faults = self.faults.saturating_add(1);
        Failed
    }
}

impl<R: Files> UnixDoor<R> {
    /// Closes the door. The file of its socket is removed, where it is still this door's.
    pub fn close(&mut self)
        ensures closed { self.new.is_closed ≡ true }
        ensures listening { self.new.listening ≡ None }
        ensures faults { self.new.faults ≡ self.old.faults }
    {
        if let Some(listening) = &self.listening {
            listening.file.remove(&self.rt);
        }
        self.listening = None;
        self.is_closed = true;
    }
}

/// Tells a peer that there is no room for it. It is told so as far as it can be without waiting.
fn refuse(stream: UnixStream) {
    let mut stream = stream;
    if stream.set_nonblocking(true).is_ok() {
        let _ = stream.write(TOO_MANY);
    }
}

/// The errors of Linux for want of memory, of descriptors of the system and of the process, and of buffers, and for a peer
/// that has gone before it was accepted.
const ENOMEM: i32 = 12;

const ENFILE: i32 = 23;

const EMFILE: i32 = 24;

const ECONNABORTED: i32 = 103;

const ENOBUFS: i32 = 105;

/// Whether an accept that failed so may succeed later: no peer came or it has gone, or the system has no descriptor or no
/// memory for one.
fn passes(error: &io::Error) -> bool {
    if error.kind() == ErrorKind::WouldBlock || error.kind() == ErrorKind::Interrupted {
        return true;
    }
    matches!(
        error.raw_os_error(),
        Some(ENOMEM | ENFILE | EMFILE | ECONNABORTED | ENOBUFS)
    )
}

impl Listening {
    /// Whether the door is to close. It is looked at once a turn.
    fn is_over<R: Files + Clock>(&mut self, rt: &R) -> bool {
        let Ok(now) = rt.monotonic() else {
            return false;
        };
        if now.saturating_sub(self.looked) < Duration::from_millis(TURN) {
            return false;
        }
        self.looked = now;
        self.file.is_gone(rt) || is_told_to_end(rt)
    }
}

/// What a door has found.
#[derive(Drop)]
enum Found<R> {
    Link(StreamLink<R>),
    Closed,
    Fault,
}

/// Waits for the next link, or until the door is to close.
fn wait<R: Files + Net + Clock + Copy + Drop>(
    rt: R,
    rooms: &Rooms,
    listening: &mut Listening,
) -> Found<R>
    ensures { IsOpen result }
{
    for _ in 0..u64::MAX {
        if listening.is_over(&rt) {
            return Found::Closed;
        }
        match listening.listener.accept() {
            Ok((stream, _)) => match rooms.take() {
                Some(room) => match StreamLink::over(rt, stream, room) {
                    Some(link) => return Found::Link(link),
                    None => return Found::Fault,
                },
                None => refuse(stream),
            },
            Err(error) => {
                if !passes(&error) {
                    return Found::Fault;
                }
                if error.kind() != ErrorKind::WouldBlock {
                    rt.sleep(Duration::from_millis(PAUSE));
                }
            }
        }
    }
    Found::Fault
}

impl<R: Files + Net + Clock + Copy + Drop> UnixDoor<R> {
    /// Waits for the next link, or until the door is to close. A door that isn't opened is a fault.
    fn find(&mut self) -> Found<R>
        ensures link { IsOpen result }
        ensures closed { self.new.is_closed ≡ self.old.is_closed }
        ensures faults { self.new.faults ≡ self.old.faults }
        ensures unopened { self.old.listening ≡ None → result ≡ Found.Fault }
    {
        match &mut self.listening {
            Some(listening) => wait(self.rt, &self.rooms, listening),
            None => Found::Fault,
        }
    }
}

impl<R: Files + Net + Clock + Copy + Drop + Send> Door for UnixDoor<R> {
    type Conn = StreamLink<R>;

    ghost told = { λ _. untold_hall };

    ghost fault_count = { λ d. d.faults };

    // A socket whose server is gone is taken over. A path at which a server answers, or anything but a socket stands, is a
    // fault, and left as it is.
    fn listen(&mut self, path: &str) -> Result<(), Failed>
        ensures told { untold_hall {Conn = StreamLink R} ≡ untold_hall }
        ensures cause { OnErr result (Rose self.old.faults self.new.faults) }
        ensures rising { self.old.faults ≤ self.new.faults }

        ensures count { self.new.faults ≡ count_after self.old.faults result }
        ensures opened { OnOk result (IsSome self.new.listening) }
        ensures closed { OnErr result (self.new.listening ≡ None) }
        ensures again { self.new.is_closed ≡ false }
    {
        self.close();
        self.is_closed = false;
        let looked = Duration::from_secs(0);
        match listen_at(&self.rt, path) {
            Ok((listener, file)) => {
                self.listening = Some(Listening {
                    listener,
                    file,
                    looked,
                });
                Ok(())
            }
            Err(_) => Err(self.fail()),
        }
    }

    // After it answered that the door is closed it goes on doing so, until the door is opened again.
    fn next(&mut self) -> Result<Option<StreamLink<R>>, Failed>
        ensures told { Lets (untold_hall {Conn = StreamLink R}) untold_hall result }
        ensures unused { IfOk result (λ next. IfSome next (λ link. IsUnused untold)) }
        ensures open { IfOk result (λ next. IfSome next (λ link. is_none link.socket ≡ false)) }
        ensures cause { OnErr result (Rose self.old.faults self.new.faults) }
        ensures rising { self.old.faults ≤ self.new.faults }

        ensures count { self.new.faults ≡ count_after self.old.faults result }
        ensures closed { self.old.is_closed ≡ true → result ≡ Ok None }
        ensures over { result ≡ Ok None → self.new.is_closed ≡ true }
        ensures unopened { self.old.is_closed ≡ false → self.old.listening ≡ None → is_err result ≡ true }
    {
        if self.is_closed {
            return Ok(None);
        }
        match self.find() {
            Found::Link(link) => Ok(Some(link)),
            Found::Closed => {
                self.close();
                Ok(None)
            }
            Found::Fault => Err(self.fail()),
        }
    }

    // The link's stream is closed.
    fn done(&mut self, link: StreamLink<R>)
        requires { HasGiven (untold_hall {Conn = StreamLink R}) }
        ensures told { TakesBack link untold_hall untold_hall }
        ensures faults { self.new.faults ≡ self.old.faults }
    {
        drop(link);
    }

    fn faults(&self) -> u64 {
        self.faults
    }
}
