//! Numbers in what is printed, and printing to a sink.

ghost use Rattle.lg_outside.specs.Faults.{Rose};
ghost use Rattle.loginctl.specs.Printing.{Printed};
ghost use Rattle.std.specs.Prelude.{◌≡◌, ◌≤◌, ◌++◌, OnOk, decimal};

use crate::status::Status;
use itoa::Buffer;
use lg_base::{Memory, Out};
use lg_outside::Sink;

/// Adds a number in decimal digits.
pub fn add_number(lines: &mut Out, number: u64) -> Result<(), Memory>
    ensures { OnOk result (lines.new ≡ lines.old ++ decimal number) }
{
    let mut digits = Buffer::new();
    lines.bytes(digits.format(number).as_bytes())
}

/// Prints a text, and answers the status that is due, or `OutputFault` where the sink fails.
pub fn print<W: Sink>(out: &mut W, text: &[u8], status: Status) -> Status
    ensures printed { Printed (W.written out.old) (W.written out.new) (Rose (W.fault_count out.old) (W.fault_count out.new)) status text.now result }
    ensures rising { W.fault_count out.old ≤ W.fault_count out.new }
{
    match out.write_all(text) {
        Ok(()) => status,
        Err(_) => Status::OutputFault,
    }
}
