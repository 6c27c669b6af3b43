//! The rounds (step 21 of the text on SHA-crypt). What an odd round hashes before the digest doesn't
//! change from round to round, so it is hashed once, and each odd round goes on from there.

ghost use Rattle.std.specs.Prelude.{◌≡◌, ℕ, List};
ghost use Rattle.sha2.specs.Hashers.{Holds256};
ghost use Rattle.sha2.specs.Sha256.{sha256};
ghost use Rattle.sha256_crypt.specs.Crypt.{round_message, after_rounds};
ghost use Rattle.sha256_crypt.specs.Fronts.{HoldFronts, odd_front};

use sha2::{Digest, Sha256};

/// What odd rounds hash before the digest: the sequence P, then S in rounds whose number isn't
/// divisible by 3, then P in those whose number isn't divisible by 7.
#[derive(Drop)]
struct OddFronts {
    password: Sha256,
    with_salt: Sha256,
    with_password: Sha256,
    with_both: Sha256,
}

impl OddFronts {
    fn new(password: &[u8], salt: &[u8]) -> OddFronts
        ensures { HoldFronts result password.now salt.now }
    {
        OddFronts {
            password: Sha256::new_with_prefix(password),
            with_salt: Sha256::new_with_prefix(password).chain_update(salt),
            with_password: Sha256::new_with_prefix(password).chain_update(password),
            with_both: Sha256::new_with_prefix(password)
                .chain_update(salt)
                .chain_update(password),
        }
    }

    /// The front of round `i`.
    fn of_round(&self, i: u32) -> &Sha256
        ensures { (p s : List ℕ) → HoldFronts self.now p s → Holds256 result.now (odd_front i p s) }
    {
        match (i % 3 == 0, i % 7 == 0) {
            (true, true) => &self.password,
            (false, true) => &self.with_salt,
            (true, false) => &self.with_password,
            (false, false) => &self.with_both,
        }
    }
}

/// The digest after round `i`.
fn round(i: u32, digest: &[u8; 32], password: &[u8], salt: &[u8], fronts: &OddFronts) -> [u8; 32]
    requires { HoldFronts fronts.now password.now salt.now }
    ensures { result ≡ sha256 (round_message i digest.now password.now salt.now) }
{
    if i % 2 == 1 {
        let mut hasher = fronts.of_round(i).clone().unwrap();
        hasher.update(digest);
        return hasher.finalize();
    }
    let mut hasher = Sha256::new_with_prefix(digest);
    if i % 3 != 0 {
        hasher.update(salt);
    }
    if i % 7 != 0 {
        hasher.update(password);
    }
    hasher.update(password);
    hasher.finalize()
}

/// The digest after `rounds` rounds.
pub(crate) fn after_rounds(start: [u8; 32], password: &[u8], salt: &[u8], rounds: u32) -> [u8; 32]
    ensures { result ≡ after_rounds start password.now salt.now rounds }
{
    let fronts = OddFronts::new(password, salt);
    let mut digest = start;
    for i in 0..rounds {
        digest = round(i, &digest, password, salt, &fronts);
    }
    digest
}
