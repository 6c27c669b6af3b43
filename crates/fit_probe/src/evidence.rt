//! The evidence of lines.

use crate::looks::bytes_of;
use factor_chain::{Evidence, Evidences};
use lg_base::{Bytes, Memory};
use std::alloc::Global;

/// The nonce that answers are to.
const NONCE: [u8; 20] = *b"00000000000000000001";

fn text_of(alloc: Global, text: &str) -> Option<Bytes> {
    Some(Bytes::from_vec(hex::decode(alloc, text).ok()?))
}

fn evidence_of(alloc: Global, text: &str) -> Option<Evidence> {
    let words: Vec<&str> = text.split(',').collect(alloc).ok()?;
    match words.as_slice() {
        ["native", response] => Some(Evidence::Native {
            nonce: NONCE,
            response: text_of(alloc, response)?,
        }),
        ["fast", response] => Some(Evidence::Fast {
            nonce: NONCE,
            response: bytes_of(alloc, response)?,
        }),
        ["full", password] => Some(Evidence::Full {
            password: text_of(alloc, password)?,
        }),
        ["empty"] => Some(Evidence::Empty),
        ["external", label, accepted] => Some(Evidence::External {
            label: Bytes::copy(alloc, label.as_bytes()).ok()?,
            accepted: *accepted == "yes",
        }),
        _ => None,
    }
}

/// Evidence of up to three factors, or `None` where a word is none.
pub fn evidences(
    alloc: Global,
    first: &str,
    further: &[&str],
) -> Result<Option<Evidences>, Memory> {
    let Some(first) = evidence_of(alloc, first) else {
        return Ok(None);
    };
    let mut given = Evidences::new(alloc, first)?;
    for word in further {
        let Some(next) = evidence_of(alloc, word) else {
            return Ok(None);
        };
        if given.len() < 3 {
            given.push(next)?;
        }
    }
    Ok(Some(given))
}
