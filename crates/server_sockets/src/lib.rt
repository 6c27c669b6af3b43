//! The server's outside over Unix sockets: the door where connections come in, its links with their deadlines, a
//! verifier that asks a socket, and the maker of what each session needs.
//!
//! **A call fails only where the object's count of faults rose, by just one.** That is proved, and so is that what a link
//! sees of a login depends on the bytes that were written alone. What the sockets, the files and the clock of the system
//! give is told to no contract: it is tested by programs that are run over real ones.
//!
//! A login that isn't over 10 seconds after the connection came, a session without a byte for 8 hours, and a write that
//! isn't taken within 60 seconds end as a failing read or write does. At most 255 links of a door aren't finished: a
//! further peer is told error 1040. Below stand `server_outside` for the traits, `lg_outside` for links, and of the kit
//! `mio`, whose connect doesn't wait.
#![tactic(auto)]

pub mod doors;
pub mod links;
pub mod makers;
pub mod places;
pub mod rooms;
pub mod sights;
pub mod signals;
pub mod verifiers;
pub mod waits;

pub use doors::UnixDoor;
pub use links::StreamLink;
pub use makers::SystemMaker;
pub use verifiers::SocketVerifier;
