//! The alphabet of crypt's texts, and the text of a digest (step 22 of the text on SHA-crypt).

ghost use Rattle.std.specs.Prelude.{◌≡◌, ◌<◌, ◌%◌, slice_index};
ghost use Rattle.sha256_crypt.specs.Alphabet.{alphabet, IsSaltByte};
ghost use Rattle.sha256_crypt.specs.Crypt.{characters, group, encoded};

/// The characters of crypt's texts: the one at place k stands for the number k.
const ALPHABET: &[u8; 64] = b"./0123456789ABCDEFGHIJKLMNOPQRSTUVWXYZabcdefghijklmnopqrstuvwxyz";

/// The salt byte that stands for a number below 64.
pub fn salt_byte(number: u8) -> u8
    requires { number < 64 }
    ensures value { result ≡ slice_index alphabet number }
    ensures salt { IsSaltByte result }
{
    ALPHABET[usize::from(number)]
}

/// The character of a number's lowest digit in base 64.
fn character(number: u32) -> u8
    ensures { result ≡ slice_index alphabet (number % 64) }
{
    salt_byte((number % 64) as u8)
}

/// The characters of a number's four lowest digits in base 64, the lowest first.
fn characters(number: u32) -> [u8; 4]
    ensures { result ≡ characters 4 number }
{
    [
        character(number),
        character(number / 64),
        character(number / 64 / 64),
        character(number / 64 / 64 / 64),
    ]
}

/// Three bytes of the digest, the highest first, as four characters.
fn group(digest: &[u8; 32], x: usize, y: usize, z: usize) -> [u8; 4]
    requires first { x < 32 }
    requires second { y < 32 }
    requires third { z < 32 }
    ensures { result ≡ group digest.now x y z }
{
    let [high, middle, low] = [digest[x], digest[y], digest[z]].map(u32::from);
    characters(high * 65536 + middle * 256 + low)
}

/// The text of the last digest.
pub(crate) fn encoded(digest: &[u8; 32]) -> [u8; 43]
    ensures { result ≡ encoded digest.now }
{
    let mut text = [0; 43];
    text[0..4].copy_from_slice(&group(digest, 0, 10, 20));
    text[4..8].copy_from_slice(&group(digest, 21, 1, 11));
    text[8..12].copy_from_slice(&group(digest, 12, 22, 2));
    text[12..16].copy_from_slice(&group(digest, 3, 13, 23));
    text[16..20].copy_from_slice(&group(digest, 24, 4, 14));
    text[20..24].copy_from_slice(&group(digest, 15, 25, 5));
    text[24..28].copy_from_slice(&group(digest, 6, 16, 26));
    text[28..32].copy_from_slice(&group(digest, 27, 7, 17));
    text[32..36].copy_from_slice(&group(digest, 18, 28, 8));
    text[36..40].copy_from_slice(&group(digest, 9, 19, 29));
    let [first, second, third, _] = characters(u32::from(digest[31]) * 256 + u32::from(digest[30]));
    text[40..43].copy_from_slice(&[first, second, third]);
    text
}
