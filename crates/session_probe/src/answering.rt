//! Which inputs answer a session.

use crate::given::packet;
use crate::looks::{NONCE, Shown, look};
use account_history::{Reply, StmtReply};
use factor_chain::{Evidence, Evidences, check};
use lg_base::{Items, Memory};
use packet_frame::FrameFault;
use session_engine::Session;
use session_talk::Input;
use std::alloc::Global;
use stmt_rules::Statement;

/// How many inputs are tried.
pub const INPUTS: usize = 15;

/// An input of each kind: a nonce of the alphabet and another one, looks with no account, with two labels and with
/// three among them.
fn every_input(alloc: Global) -> Result<Items<Input>, Memory> {
    let mut inputs = Items::new(alloc);
    inputs.push(Input::Start { nonce: NONCE })?;
    inputs.push(Input::Packet(packet(alloc, 1, b"\x0e")?))?;
    inputs.push(Input::Frame(FrameFault::TooLarge { at: 0 }))?;
    inputs.push(Input::End { cut: false })?;
    inputs.push(Input::LinkFailed)?;
    inputs.push(Input::Drawn(NONCE))?;
    inputs.push(Input::Drawn(*b"0000000000-000000002"))?;
    inputs.push(Input::Looked(look(alloc, Shown::Nobody, 7)?))?;
    inputs.push(Input::Looked(look(alloc, Shown::Labelled(2), 7)?))?;
    inputs.push(Input::Looked(look(alloc, Shown::Labelled(3), 7)?))?;
    push_settling(alloc, &mut inputs)?;
    inputs.push(Input::StaleStatement(Statement::Flush))?;
    inputs.push(Input::Ran(StmtReply::Done))?;
    Ok(inputs)
}

fn push_settling(alloc: Global, inputs: &mut Items<Input>) -> Result<(), Memory> {
    let seen = look(alloc, Shown::Nobody, 7)?;
    let given = Evidences::new(alloc, Evidence::Empty)?;
    inputs.push(Input::Checked(check(seen, given)))?;
    inputs.push(Input::Stale(Evidences::new(alloc, Evidence::Empty)?))?;
    inputs.push(Input::Settled(Reply::Locked))
}

/// Whether each of those inputs answers a session, in their order.
pub fn marks(alloc: Global, session: &Session) -> Result<[bool; INPUTS], Memory> {
    let mut marks = [false; INPUTS];
    let inputs = every_input(alloc)?;
    for (mark, input) in marks.iter_mut().zip(inputs.as_slice()) {
        *mark = session.answers(input);
    }
    Ok(marks)
}

/// Whether nonces that begin, and that end with this byte answer a session.
pub fn takes_nonces_of(session: &Session, byte: u8) -> bool {
    let (mut first, mut last) = (NONCE, NONCE);
    first[0] = byte;
    last[19] = byte;
    session.answers(&Input::Drawn(first)) && session.answers(&Input::Drawn(last))
}
