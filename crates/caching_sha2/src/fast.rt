//! The fast answer of caching_sha2_password, after the page "Caching_sha2_password information" of
//! the MySQL protocol documentation.

ghost use Rattle.std.specs.Prelude.{◌≡◌, IsTrue, ◌↔◌};
ghost use Rattle.caching_sha2.specs.Fast.{xor_bytes, digest_of, fast_mask, fast_answer, fast_right, IsFastRight};

use sha2::{Digest, Sha256};

/// Two digests, xored byte by byte.
fn xor_bytes(left: &[u8; 32], right: &[u8; 32]) -> [u8; 32]
    ensures { result ≡ xor_bytes left.now right.now }
{
    let mut both = [0; 32];
    for i in 0..32 {
        both[i] = left[i] ^ right[i];
    }
    both
}

/// What an answer to the nonce is xored with, for a password with this digest.
fn fast_mask(digest: &[u8; 32], nonce: &[u8; 20]) -> [u8; 32]
    ensures { result ≡ fast_mask digest.now nonce.now }
{
    let mut hasher = Sha256::new();
    hasher.update(digest);
    hasher.update(nonce);
    hasher.finalize()
}

/// The digest of a password, by which its fast answers are tested: `SHA256(SHA256(password))`.
pub fn digest(password: &[u8]) -> [u8; 32]
    ensures { result ≡ digest_of password.now }
{
    Sha256::digest(Sha256::digest(password))
}

/// A client's answer to a nonce: `SHA256(password) XOR SHA256(digest, nonce)`.
pub fn fast_response(password: &[u8], nonce: &[u8; 20]) -> [u8; 32]
    ensures answer { result ≡ fast_answer password.now nonce.now }

    // The server, which knows the digest alone, takes it.
    ensures right { IsTrue (fast_right (digest_of password.now) nonce.now result) }
{
    let once = Sha256::digest(password);
    let twice = Sha256::digest(once);
    xor_bytes(&once, &fast_mask(&twice, nonce))
}

/// Whether the response is right for the digest: `SHA256(response XOR SHA256(digest, nonce))` is the
/// digest.
pub fn fast_right(digest: &[u8; 32], nonce: &[u8; 20], response: &[u8; 32]) -> bool
    ensures test { result ≡ fast_right digest.now nonce.now response.now }
    ensures equation { IsTrue result ↔ IsFastRight digest.now nonce.now response.now }
{
    Sha256::digest(xor_bytes(response, &fast_mask(digest, nonce))) == *digest
}
