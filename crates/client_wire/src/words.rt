//! The words of a client's result.

ghost use Rattle.client_wire.specs.Words.{end_words, place_of, reason_word};
ghost use Rattle.std.specs.Prelude.{◌≡◌, ◌++◌, OnOk, decimal};

use itoa::Buffer;
use lg_base::{Memory, Out};
use login_client::{LoginEnd, Reason};
use packet_frame::FrameFault;

/// The word for a reason.
#[tactic(auto, unfolding(crate::specs::Words::reason_word))]
fn reason_word(reason: Reason) -> &'static [u8]
    ensures { result.now ≡ reason_word reason }
{
    match reason {
        Reason::UnknownMethod => b"unknownmethod",
        Reason::NoSecret => b"nosecret",
        Reason::NotLocal => b"notlocal",
        Reason::ClearNotPermitted => b"notpermitted",
    }
}

/// Adds a number in decimal digits.
fn add_number(out: &mut Out, number: u64) -> Result<(), Memory>
    ensures { OnOk result (out.new ≡ out.old ++ decimal number) }
{
    let mut digits = Buffer::new();
    out.bytes(digits.format(number).as_bytes())
}

/// The place of a fault of packets.
fn place_of(fault: FrameFault) -> u64
    ensures { result ≡ place_of fault }
{
    match fault {
        FrameFault::TooLarge { at } => at,
        FrameFault::OutOfOrder {
            at,
            want: _,
            got: _,
        } => at,
        FrameFault::Memory => 0,
    }
}

/// Adds the words of a result; of want of memory there are none. After `Memory` a part of them may have been added.
#[tactic(auto, unfolding(crate::specs::Words::end_words))]
pub fn add_words(out: &mut Out, end: LoginEnd) -> Result<(), Memory>
    ensures { OnOk result (out.new ≡ out.old ++ end_words end) }
{
    match end {
        LoginEnd::Opened => out.bytes(b"opened"),
        LoginEnd::Refused { number } => {
            out.bytes(b"refused ")?;
            add_number(out, u64::from(number))
        }
        LoginEnd::Malformed { at } => {
            out.bytes(b"malformed ")?;
            add_number(out, at)
        }
        LoginEnd::Framing(fault) => {
            out.bytes(b"framing ")?;
            add_number(out, place_of(fault))
        }
        LoginEnd::WontSend(reason) => {
            out.bytes(b"wontsend ")?;
            out.bytes(reason_word(reason))
        }
        LoginEnd::PeerClosed => out.bytes(b"closed"),
        LoginEnd::LinkFault => out.bytes(b"linkfault"),
        LoginEnd::Memory => out.bytes(b""),
    }
}
