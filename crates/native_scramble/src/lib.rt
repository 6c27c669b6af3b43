//! The method `mysql_native_password`: a client shows by an answer to the server's nonce that it
//! knows a password, of which the server stores a digest of a digest alone.
//!
//! **The answer of a password is right for what is stored of that password and for the nonce that
//! was asked, and [`right`] is the protocol's test and no other.**
//!
//! The rule is the one of the MySQL client/server protocol, Connection Phase, Authentication
//! Methods, "Native Authentication":
//!
//! ```text
//! SHA1(password) XOR SHA1(nonce <concat> SHA1(SHA1(password)))
//! ```
//!
//! The stored text is the one of the MySQL 8.0 Reference Manual, "Password Hashing in MySQL". Below
//! stand the crates `sha1` and `hex`. No call takes memory. That SHA-1 is strong is not claimed.
#![tactic(auto)]

ghost use Rattle.std.specs.Prelude.{◌≡◌, ◌↔◌, IsTrue, IsSome, IfSome, ◌++◌, ℕ, List, length, Some};
ghost use Rattle.std.specs.List.{AllPass};
ghost use Rattle.hex.specs.Hex.{IsBytes};
ghost use Rattle.sha1.specs.Sha1.{sha1};
ghost use Rattle.native_scramble.specs.Native.{IsNativeText, is_upper_hex_digit, native_answer, native_mask, native_right, native_stage2, native_text, xor_bytes};

use hex::FromHex;
use sha1::Sha1;

/// What the server stores of a password: SHA1(SHA1(password)).
pub fn stage2(password: &[u8]) -> [u8; 20]
    ensures { result ≡ native_stage2 password.now }
{
    Sha1::digest(&Sha1::digest(password))
}

/// The client's answer to the server's nonce.
pub fn respond(password: &[u8], nonce: &[u8; 20]) -> [u8; 20]
    ensures answer { result ≡ native_answer password.now nonce.now }
    ensures right { IsTrue (native_right (native_stage2 password.now) nonce.now result) }
{
    xor(&Sha1::digest(password), &mask(nonce, &stage2(password)))
}

/// Whether a response to the nonce is right for what is stored, without knowing the password:
/// SHA1(response XOR SHA1(nonce <concat> stage2)) = stage2.
pub fn right(stage2: &[u8; 20], nonce: &[u8; 20], response: &[u8; 20]) -> bool
    ensures test { result ≡ native_right stage2.now nonce.now response.now }
    ensures equation { IsTrue result
        ↔ (sha1 (xor_bytes response.now (sha1 (nonce.now ++ stage2.now))) ≡ stage2.now) }
{
    let hidden = xor(response, &mask(nonce, stage2));
    Sha1::digest(&hidden) == *stage2
}

/// The stored text: `*` and the bytes of `stage2` in upper-case hexadecimal.
pub fn write_stored(stage2: &[u8; 20]) -> [u8; 41]
    ensures { result ≡ native_text stage2.now }
{
    let mut text = [b'*'; 41];
    hex::encode_to_slice(stage2.as_slice(), &mut text[1..]).unwrap();
    text.make_ascii_uppercase();
    text
}

/// The bytes that a stored text stands for. `None` where the text isn't `*` and 40 upper-case
/// hexadecimal digits.
pub fn read_stored(text: &[u8]) -> Option<[u8; 20]>
    ensures found { IsSome result ↔ IsNativeText text.now }
    ensures value { IfSome result (λ stage2. native_text stage2 ≡ text.now) }
    ensures written { (stage2 : List ℕ) → length stage2 ≡ 20 → IsBytes stage2 → text.now ≡ native_text stage2
        → result ≡ Some stage2 }
{
    let [b'*', digits @ ..] = text else {
        return None;
    };
    if !are_upper_hex_digits(digits) {
        return None;
    }
    <[u8; 20] as FromHex>::from_hex(digits).ok()
}

/// Whether each byte is one of `0` to `9` and `A` to `F`.
fn are_upper_hex_digits(digits: &[u8]) -> bool
    ensures { IsTrue result ↔ AllPass is_upper_hex_digit digits.now }
{
    digits
        .iter()
        .all(|digit| matches!(digit, b'0'..=b'9' | b'A'..=b'F'))
}

/// What hides the digest of a password on the wire: SHA1(nonce <concat> stage2).
fn mask(nonce: &[u8; 20], stage2: &[u8; 20]) -> [u8; 20]
    ensures { result ≡ native_mask nonce.now stage2.now }
{
    let mut hasher = Sha1::new();
    hasher.update(nonce);
    hasher.update(stage2);
    hasher.finalize()
}

/// The two joined by xor, byte by byte.
fn xor(left: &[u8; 20], right: &[u8; 20]) -> [u8; 20]
    ensures { result ≡ xor_bytes left.now right.now }
{
    let mut joined = *left;
    for (place, byte) in right.iter().enumerate() {
        joined[place] ^= *byte;
    }
    joined
}
