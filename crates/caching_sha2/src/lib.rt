//! The method caching_sha2_password: the fast answer and its test, and the value that is stored of a
//! password.
//!
//! **`fast_right` is the test of the protocol's documentation, and the answer that `fast_response`
//! gives for a password passes it with the password's digest** (`specs/Fast.antt`). **A stored value
//! and its 70 bytes of text determine each other, and `read_stored` answers None exactly where the
//! text is no value's** (`specs/Stored.antt`). Salts and sums are of the alphabet `./0-9A-Za-z`, as
//! crypt writes them. The hash is `sha2`'s. Nothing here takes memory.
#![tactic(auto)]

pub use fast::{digest, fast_response, fast_right};
pub use stored::{Sha2Stored, is_salt_byte, read_stored, write_stored};

mod fast;
mod stored;
