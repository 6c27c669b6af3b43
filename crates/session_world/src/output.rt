//! What comes of something that is done: lines, and bytes for a peer.

ghost use Rattle.packet_stream.specs.Sent.{sent_from};
ghost use Rattle.session_world.specs.Leading.{with_lines};
ghost use Rattle.std.specs.Prelude.{◌≡◌, [], ◌∷◌, OnOk};
ghost use Rattle.world_table.specs.Printing.{Idle, send_lines};

use lg_base::{Bytes, Memory, Out};
use packet_stream::add_packets;
use std::alloc::Global;
use world_table::printing::{print_idle, print_sends};

/// The lines that are printed, and the bytes that are sent to the peer of the session that goes on.
#[derive(Drop)]
pub struct Output {
    pub lines: Out,
    pub sent: Out,
}

impl Output {
    /// Nothing yet.
    pub fn new(alloc: Global) -> Output
        ensures { result ≡ record { lines = []; sent = [] } }
    {
        Output {
            lines: Out::new(alloc),
            sent: Out::new(alloc),
        }
    }

    /// Payloads are sent by a session, the first with a sequence id.
    #[tactic(auto, using(crate::proofs::Giving::all_sent))]
    pub fn put_sends(&mut self, session: u32, first: u8, payloads: &[Bytes]) -> Result<(), Memory>
        ensures { OnOk result (self.new ≡ with_lines session (send_lines (sent_from first payloads.now)) self.old) }
    {
        print_sends(&mut self.lines, session, first, payloads)?;
        add_packets(&mut self.sent, first, payloads)
    }

    /// Nothing is to be done for a session.
    #[tactic(auto, using(crate::proofs::Giving::one_line))]
    pub fn put_idle(&mut self, session: u32) -> Result<(), Memory>
        ensures { OnOk result (self.new ≡ with_lines session (Idle ∷ []) self.old) }
    {
        print_idle(&mut self.lines, session)
    }
}
