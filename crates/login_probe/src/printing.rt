//! What is printed of a login's end.

use login_client::{LoginEnd, Reason};
use packet_frame::FrameFault;
use std::io;

fn reason_text(reason: Reason) -> &'static str {
    match reason {
        Reason::UnknownMethod => "unknown method",
        Reason::NoSecret => "no secret",
        Reason::NotLocal => "not local",
        Reason::ClearNotPermitted => "clear not permitted",
    }
}

fn print_framing(rt: &HostRuntime, fault: FrameFault) -> io::Result<()> {
    match fault {
        FrameFault::TooLarge { at } => print!(rt; "too large at {at}"),
        FrameFault::OutOfOrder { at, want, got } => print!(rt; "{got} for {want} at {at}"),
        FrameFault::Memory => print!(rt; "memory of packets"),
    }
}

pub fn print_end(rt: &HostRuntime, end: LoginEnd) -> io::Result<()> {
    match end {
        LoginEnd::Opened => print!(rt; "opened"),
        LoginEnd::Refused { number } => print!(rt; "refused {number}"),
        LoginEnd::Malformed { at } => print!(rt; "malformed at {at}"),
        LoginEnd::Framing(fault) => print_framing(rt, fault),
        LoginEnd::WontSend(reason) => print!(rt; "{}", reason_text(reason)),
        LoginEnd::PeerClosed => print!(rt; "peer closed"),
        LoginEnd::LinkFault => print!(rt; "link fault"),
        LoginEnd::Memory => print!(rt; "memory"),
    }
}
