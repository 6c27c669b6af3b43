//! The evidence of lines.

use factor_chain::{Evidence, Evidences};
use lg_base::{Bytes, Memory};
use std::alloc::Global;

/// The nonce that answers are to.
const NONCE: [u8; 20] = *b"00000000000000000001";

fn bytes_of(alloc: Global, text: &str) -> Option<Bytes> {
    Some(Bytes::from_vec(hex::decode(alloc, text).ok()?))
}

/// Exactly 32 bytes.
fn answer_of(alloc: Global, text: &str) -> Option<[u8; 32]> {
    let bytes = hex::decode(alloc, text).ok()?;
    <[u8; 32]>::try_from(bytes.as_slice()).ok()
}

fn evidence_of(alloc: Global, text: &str) -> Option<Evidence> {
    let words: Vec<&str> = text.split(',').collect(alloc).ok()?;
    match words.as_slice() {
        ["native", response] => Some(Evidence::Native {
            nonce: NONCE,
            response: bytes_of(alloc, response)?,
        }),
        ["fast", response] => Some(Evidence::Fast {
            nonce: NONCE,
            response: answer_of(alloc, response)?,
        }),
        ["full", password] => Some(Evidence::Full {
            password: bytes_of(alloc, password)?,
        }),
        ["empty"] => Some(Evidence::Empty),
        ["external", label, accepted] => Some(Evidence::External {
            label: bytes_of(alloc, label)?,
            accepted: *accepted == "yes",
        }),
        _ => None,
    }
}

/// Evidence of up to three factors, or `None` where a word is none.
pub fn evidences(alloc: Global, words: &[&str]) -> Result<Option<Evidences>, Memory> {
    let [first, further @ ..] = words else {
        return Ok(None);
    };
    let Some(first) = evidence_of(alloc, first) else {
        return Ok(None);
    };
    let mut given = Evidences::new(alloc, first)?;
    for word in further {
        let Some(next) = evidence_of(alloc, word) else {
            return Ok(None);
        };
        if given.len() < 3 {
            given.push(next)?;
        }
    }
    Ok(Some(given))
}
