//! What is stored of a password for caching_sha2_password, and its text of 70 bytes: `$A$`, three
//! upper-case hexadecimal digits of the thousands of rounds from `001` to `FFF`, `$`, 20 bytes of
//! salt and 43 of sum. The form is this project's own, and nothing is claimed of what other servers
//! store.

ghost use Rattle.std.specs.Prelude.{◌≡◌, ℕ, ◌<◌, ◌≤◌, ◌+◌, [], ◌∷◌, ◌++◌, ◌↔◌, length, take, drop, IfSome, IsTrue};
ghost use Rattle.std.specs.List.{All};
ghost use Rattle.caching_sha2.specs.Stored.{IsSaltByte, IsStorable, IsStoredText, hex_digit, hex_digits};
ghost use Rattle.caching_sha2.specs.declared.stored.Sha2Stored.{Sha2Stored};

/// The sum of a password under a salt, by SHA-256 crypt in `1000 * thousands` rounds.
#[derive(Debug, Clone, Copy, PartialEq, Eq)]
pub struct Sha2Stored {
    pub thousands: u16,
    pub salt: [u8; 20],
    pub sum: [u8; 43],
}

/// The digits of hexadecimal text.
const HEX_DIGITS: &[u8; 16] = b"0123456789ABCDEF";

/// The character of a hexadecimal digit.
fn hex_digit(value: u16) -> u8
    requires { value < 16 }
    ensures { result ≡ hex_digit value }
{
    HEX_DIGITS[usize::from(value)]
}

/// The three hexadecimal digits of a number below 4096.
fn write_hex(number: u16) -> [u8; 3]
    requires { number < 4096 }
    ensures { result ≡ hex_digits number }
{
    [
        hex_digit(number / 256),
        hex_digit(number / 16 % 16),
        hex_digit(number % 16),
    ]
}

/// The value of a hexadecimal digit. None for other bytes, lower-case letters too.
fn hex_value(digit: u8) -> Option<u16>
    ensures read { IfSome result (λ v. (v < 16) × (hex_digit v ≡ digit)) }
    ensures found { (v : ℕ) → v < 16 → hex_digit v ≡ digit → result ≡ Some v }
{
    match digit {
        b'0'..=b'9' => Some(u16::from(digit - b'0')),
        b'A'..=b'F' => Some(u16::from(digit - b'A') + 10),
        _ => None,
    }
}

/// The number from 1 to 4095 of three hexadecimal digits. None where they aren't one.
fn read_thousands(high: u8, middle: u8, low: u8) -> Option<u16>
    ensures read { IfSome result (λ n. (1 ≤ n) × (n ≤ 4095) × (hex_digits n ≡ high ∷ middle ∷ low ∷ [])) }
    ensures found { (n : ℕ) → 1 ≤ n → n ≤ 4095 → hex_digits n ≡ high ∷ middle ∷ low ∷ [] → result ≡ Some n }
{
    let number = hex_value(high)? * 256 + hex_value(middle)? * 16 + hex_value(low)?;
    if number == 0 { None } else { Some(number) }
}

/// Whether the byte may stand in a salt and in a sum: it is one of `./0-9A-Za-z`.
#[tactic(auto, unfolding(crate::specs::Stored::IsSaltByte))]
pub fn is_salt_byte(byte: u8) -> bool
    ensures { IsTrue result ↔ IsSaltByte byte }
{
    matches!(byte, b'.'..=b'9' | b'A'..=b'Z' | b'a'..=b'z')
}

/// The bytes in an array. None where they aren't as many or one isn't a salt byte.
fn salt_bytes<const N: usize>(bytes: &[u8]) -> Option<[u8; N]>
    ensures read { IfSome result (λ a. (a ≡ bytes.now) × (length bytes.now ≡ N) × All IsSaltByte bytes.now) }
    ensures found { length bytes.now ≡ N → All IsSaltByte bytes.now → result ≡ Some bytes.now }
{
    if bytes.len() != N || !bytes.iter().all(|&byte| is_salt_byte(byte)) {
        return None;
    }
    let mut array = [0; N];
    array.copy_from_slice(bytes);
    Some(array)
}

/// Writes the bytes into the text from place `at` on.
fn put(text: &mut [u8; 70], at: usize, bytes: &[u8])
    requires { at + length bytes.now ≤ 70 }
    ensures { text.new ≡ take at text.old ++ (bytes.now ++ drop (at + length bytes.now) text.old) }
{
    text[at..at + bytes.len()].copy_from_slice(bytes);
}

/// The text of a value, which has from 1 to 4095 thousands, and salt and sum of the alphabet.
pub fn write_stored(value: &Sha2Stored) -> [u8; 70]
    requires { IsStorable value.now }
    ensures { IsStoredText value.now result }
{
    let mut text = [b'$'; 70];
    text[1] = b'A';
    put(&mut text, 3, &write_hex(value.thousands));
    put(&mut text, 7, &value.salt);
    put(&mut text, 27, &value.sum);
    text
}

/// The value of a text. None exactly where the text is no value's.
pub fn read_stored(text: &[u8]) -> Option<Sha2Stored>
    ensures read { IfSome result (λ value. IsStoredText value text.now) }

    // So None comes only where the text is no value's, and no text is two values'.
    ensures found { (value : Sha2Stored) → IsStoredText value text.now → result ≡ Some value }
{
    let [b'$', b'A', b'$', high, middle, low, b'$', rest @ ..] = text else {
        return None;
    };
    let thousands = read_thousands(*high, *middle, *low)?;
    if rest.len() != 63 {
        return None;
    }
    let (salt, sum) = rest.split_at(20);
    Some(Sha2Stored {
        thousands,
        salt: salt_bytes(salt)?,
        sum: salt_bytes(sum)?,
    })
}
