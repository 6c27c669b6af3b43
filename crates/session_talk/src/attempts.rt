//! What a client says of itself when it logs in.

use lg_base::Bytes;

/// An attempt to log in: its user and the client's capability flags.
#[derive(Debug, Drop)]
pub struct Attempting {
    pub user: Bytes,
    pub flags: u32,
}

/// How the client claims to be the user: the nonce that it was given, the method that it named, and its answer.
#[derive(Debug, Drop)]
pub struct Claim {
    pub nonce: [u8; 20],
    pub plugin: Bytes,
    pub auth: Bytes,
}
