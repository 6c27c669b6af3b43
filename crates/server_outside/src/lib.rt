//! The outside of the server, as traits: clocks, draws of nonces, verifiers of further factors, gates, doors where
//! connections come in, and makers of what each session needs. Beside each trait stands its form in memory, which tells
//! contracts what it has given and fails at listed calls alone. Of the adapters, which tell nothing of what they
//! have given, the system's clock and draws by ChaCha20 stand here, and those over sockets in `server_sockets`.
//!
//! **What a clock, draws or a verifier give comes last in what they tell**, until they cease to tell. Contracts see what
//! they and a maker were made with, and no call of the traits changes that. **A door gives the first link that is left.**
//! A call answers `Failed` only where the object's count of faults rose in that call, or stands at the end of its type.
#![tactic(auto)]

pub mod chacha_draws;
pub mod clocks;
pub mod counted_draws;
pub mod doors;
pub mod draws;
pub mod gates;
pub mod list_clock;
pub mod list_maker;
pub mod list_verifier;
pub mod makers;
pub mod memory_door;
pub mod system_clock;
pub mod verifiers;

pub use chacha_draws::{ChaChaDraws, random_seed};
pub use clocks::Clock;
pub use counted_draws::CountedDraws;
pub use doors::Door;
pub use draws::Draws;
pub use gates::{Gate, NoGate, PairGate};
pub use list_clock::ListClock;
pub use list_maker::ListMaker;
pub use list_verifier::ListVerifier;
pub use makers::Maker;
pub use memory_door::MemoryDoor;
pub use system_clock::SystemClock;
pub use verifiers::{Accepted, Verdict, Verifier};
