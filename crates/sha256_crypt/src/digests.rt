//! What the rounds start from: the digest A and the byte sequences P and S (steps 1 to 20 of the
//! text on SHA-crypt). Everything is fed to the hashers piece by piece.

ghost use Rattle.std.specs.Prelude.{◌≡◌, ℕ, ◌≤◌, List, ◌++◌, take};
ghost use Rattle.sha2.specs.Hashers.{Holds256};
ghost use Rattle.sha2.specs.Sha256.{sha256};
ghost use Rattle.sha256_crypt.specs.Crypt.{copies, stretched, by_halving, mixed_digest, start_digest};

use sha2::{Digest, Sha256};

/// Adds the first `size` bytes of the digest, repeated, to what is hashed.
fn add_stretched(hasher: &mut Sha256, digest: &[u8; 32], size: usize)
    ensures { (m : List ℕ) → Holds256 hasher.old m → Holds256 hasher.new (m ++ stretched size digest.now) }
{
    for _ in 0..size / 32 {
        hasher.update(digest);
    }
    hasher.update(&digest[..size % 32]);
}

/// Adds `odd` where the number is odd and `even` where it is even, then the same for its half, and so
/// on down to 1.
fn add_by_halving(hasher: &mut Sha256, number: usize, odd: &[u8], even: &[u8])
    ensures { (m : List ℕ) → Holds256 hasher.old m
        → Holds256 hasher.new (m ++ by_halving number odd.now even.now number) }
{
    let mut rest = number;
    while rest > 0 {
        hasher.update(if rest % 2 == 1 { odd } else { even });
        rest /= 2;
    }
}

/// The digest of `count` copies of a text.
pub(crate) fn digest_of_copies(text: &[u8], count: usize) -> [u8; 32]
    ensures { result ≡ sha256 (copies count text.now) }
{
    let mut hasher = Sha256::new();
    for i in 0..count {
        hasher.update(text);
    }
    hasher.finalize()
}

/// The digest that the start digest mixes in.
fn mixed_digest(password: &[u8], salt: &[u8]) -> [u8; 32]
    ensures { result ≡ mixed_digest password.now salt.now }
{
    let mut hasher = Sha256::new();
    hasher.update(password);
    hasher.update(salt);
    hasher.update(password);
    hasher.finalize()
}

/// The digest that the rounds start from.
pub(crate) fn start_digest(password: &[u8], salt: &[u8]) -> [u8; 32]
    ensures { result ≡ start_digest password.now salt.now (mixed_digest password.now salt.now) }
{
    let mixed = mixed_digest(password, salt);
    let mut hasher = Sha256::new();
    hasher.update(password);
    hasher.update(salt);
    add_stretched(&mut hasher, &mixed, password.len());
    add_by_halving(&mut hasher, password.len(), &mixed, password);
    hasher.finalize()
}

/// The digest, repeated, in the first `size` bytes of an array.
pub(crate) fn stretched<const N: usize>(digest: &[u8; 32], size: usize) -> [u8; N]
    requires { size ≤ N }
    ensures { take size result ≡ stretched size digest.now }
{
    let mut bytes = [0; N];
    for i in 0..size {
        bytes[i] = digest[i % 32];
    }
    bytes
}
