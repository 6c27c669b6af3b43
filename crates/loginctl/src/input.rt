//! Reading an input to its end, or one byte past a limit.

ghost use Rattle.lg_outside.specs.Faults.{Rose};
ghost use Rattle.loginctl.specs.Input.{Held};
ghost use Rattle.std.specs.Prelude.{[], ◌≡◌, ◌<◌, ◌≤◌, ◌^◌, IfOk, OnErr, IfErr, length, None, Some, IfSome};

use lg_base::Memory;
use lg_outside::Source;
use std::alloc::Global;

/// Bytes read at a time.
const PIECE: usize = 4096;

/// What stopped the reading of an input.
#[derive(Debug, Drop)]
pub enum ReadEnd {
    /// The source failed.
    Fault,
    /// No memory was to be had.
    Memory,
}

impl From<Memory> for ReadEnd {
    fn from(_want: Memory) -> ReadEnd {
        ReadEnd::Memory
    }
}

/// Reads `input` to its end, or until more than `limit` bytes are held.
pub fn read_all<S: Source>(alloc: Global, input: &mut S, limit: usize) -> Result<Vec<u8>, ReadEnd>
    requires { limit < 2 ^ 62 }
    ensures held { IfOk result (λ text. Held (S.left input.old) (S.left input.new) text.items) }
    ensures whole { IfOk result (λ text. length text.items ≤ limit → IfSome (S.left input.new) (λ left. left ≡ [])) }
    ensures cause { IfErr result (λ end. (end ≡ ReadEnd.Fault) → Rose (S.fault_count input.old) (S.fault_count input.new)) }
    ensures rising { S.fault_count input.old ≤ S.fault_count input.new }
{
    let mut held = Vec::new(alloc);
    let mut piece = [0u8; PIECE];
    while held.len() <= limit {
        let count = match input.read(&mut piece) {
            Ok(count) => count,
            Err(_) => return Err(ReadEnd::Fault),
        };
        if count == 0 {
            return Ok(held);
        }
        if held.extend_from_slice(&piece[..count]).is_err() {
            return Err(ReadEnd::Memory);
        }
    }
    Ok(held)
}
