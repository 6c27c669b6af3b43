//! A client of a login over bytes: it is given them as they come, reads the packets among them, and writes packets into
//! an output.
//!
//! **[`ClientEnd::get`] writes exactly what `getting` of `specs/Getting.antt` says of the bytes that were not read and
//! the further ones, stands where it says, and leaves what stands behind the packet that ends the login. However the
//! bytes are cut, it comes to the same, and it is an exchange of `login_client`** (`laws.rt`). A fault of framing ends
//! the login.
//!
//! [`HeldClient`] is such a client with the bytes that are under way between it and its server, as a world of clients
//! keeps it between events (`specs/UnderWay.antt`).
//!
//! [`add_words`] tells how a login ended. Below stand `login_client` for the talk, and `packet_stream` for bytes that came
//! and weren't read, and for packets as they are written.
#![tactic(auto)]

pub mod clients;
pub mod ends;
pub mod held_client;
pub mod laws;
pub mod words;

pub use ends::ClientEnd;
pub use held_client::HeldClient;
pub use words::add_words;
