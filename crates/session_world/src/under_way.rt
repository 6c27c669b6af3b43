//! Bytes that come from a client to its session, and from the session to the client.

ghost use Rattle.client_wire.specs.Clients.{client_of};
ghost use Rattle.session_world.specs.Replays.{Replay, brings, cuts_off, downs, gets, idles, is_cut_off, is_in, ups, writes};
ghost use Rattle.session_world.specs.Staged.{Leaves, Stands, StandsBeside};
ghost use Rattle.std.specs.Prelude.{◌≡◌, Some, drop, take, OnOk};

use crate::output::Output;
use crate::stage::Stage;
use crate::telling::{print_idles, print_if_told};
use client_wire::HeldClient;
use client_wire::clients::{get, keep, take};
use lg_base::{Memory, Out};
use login_client::LoginEnd;
use packet_stream::add_packet;
use std::alloc::Global;

/// Whether a session has ended, and its client still waits for a result.
pub fn is_cut_off(over: bool, told: Option<LoginEnd>) -> bool
    ensures { result ≡ is_cut_off over told }
{
    over && told.is_none()
}

/// Whether a client is in.
fn is_in(told: Option<LoginEnd>) -> bool
    ensures { result ≡ is_in told }
{
    match told {
        Some(LoginEnd::Opened) => true,
        _ => false,
    }
}

impl Stage {
    /// Nothing can be done for a session, whose client was taken out and is put back.
    fn rest(&mut self, number: u32, held: HeldClient, out: &mut Out) -> Result<(), Memory>
        ensures { (r : Replay) → StandsBeside number self.old r → r.clients number ≡ Some (client_of held) → OnOk result (Leaves (idles r number) self.new out.old out.new) }
    {
        print_idles(out, number)?;
        keep(&mut self.clients, number, held)
    }

    /// At most so many bytes of a client, which was taken out, come to its session.
    pub fn bring(
        &mut self,
        alloc: Global,
        number: u32,
        most: u64,
        held: HeldClient,
        out: &mut Out,
    ) -> Result<(), Memory>
        ensures { (r : Replay) → StandsBeside number self.old r → OnOk result (Leaves (brings r number (client_of held) (take most (client_of held).leaving) (drop most (client_of held).leaving)) self.new out.old out.new) }
    {
        let mut put = Output::new(alloc);
        self.state
            .send(alloc, number, held.leaving.front(most), &mut put)?;
        keep(&mut self.clients, number, held.brought(most))?;
        self.put(number, &put, out)
    }

    /// At most so many bytes come to a client, which was taken out. Its result is told, if it has just come to it.
    pub fn hand_down(
        &mut self,
        alloc: Global,
        number: u32,
        most: u64,
        held: HeldClient,
        out: &mut Out,
    ) -> Result<(), Memory>
        ensures { (r : Replay) → StandsBeside number self.old r → OnOk result (Leaves (gets r number (client_of held) (take most (client_of held).coming) (drop most (client_of held).coming)) self.new out.old out.new) }
    {
        let (held, told) = get(alloc, held, most)?;
        print_if_told(out, number, told)?;
        keep(&mut self.clients, number, held)
    }

    /// The result of a client, which was taken out, is told, since its session has ended.
    pub fn cut_off(&mut self, number: u32, held: HeldClient, out: &mut Out) -> Result<(), Memory>
        ensures { (r : Replay) → StandsBeside number self.old r → OnOk result (Leaves (cuts_off r number (client_of held)) self.new out.old out.new) }
    {
        print_if_told(out, number, Some(LoginEnd::PeerClosed))?;
        keep(&mut self.clients, number, held.cut_off())
    }

    /// At most so many bytes of a client come to its session.
    pub fn up(&mut self, alloc: Global, number: u32, most: u64, out: &mut Out) -> Result<(), Memory>
        ensures { (r : Replay) → Stands self.old r → OnOk result (Leaves (ups r number most (r.clients number)) self.new out.old out.new) }
    {
        let there = self.state.is_there(number);
        match take(&mut self.clients, number) {
            None => print_idles(out, number),
            Some(held) => {
                if !there {
                    return self.rest(number, held, out);
                }
                if !held.leaving.has_bytes() {
                    return self.rest(number, held, out);
                }
                self.bring(alloc, number, most, held, out)
            }
        }
    }

    /// At most so many bytes of a session come to its client.
    pub fn down(
        &mut self,
        alloc: Global,
        number: u32,
        most: u64,
        out: &mut Out,
    ) -> Result<(), Memory>
        ensures { (r : Replay) → Stands self.old r → OnOk result (Leaves (downs r number most (r.clients number)) self.new out.old out.new) }
    {
        let over = self.state.is_over(number);
        match take(&mut self.clients, number) {
            None => print_idles(out, number),
            Some(held) => {
                if held.coming.has_bytes() {
                    self.hand_down(alloc, number, most, held, out)
                } else if is_cut_off(over, held.result) {
                    self.cut_off(number, held, out)
                } else {
                    self.rest(number, held, out)
                }
            }
        }
    }

    /// A client that is in writes a command.
    pub fn write(
        &mut self,
        alloc: Global,
        number: u32,
        payload: &[u8],
        out: &mut Out,
    ) -> Result<(), Memory>
        ensures { (r : Replay) → Stands self.old r → OnOk result (Leaves (writes r number payload.now (r.clients number)) self.new out.old out.new) }
    {
        let there = self.state.is_there(number);
        match take(&mut self.clients, number) {
            None => print_idles(out, number),
            Some(held) => {
                if !there {
                    return self.rest(number, held, out);
                }
                if !is_in(held.result) {
                    return self.rest(number, held, out);
                }
                let mut text = Out::new(alloc);
                let _next = add_packet(&mut text, 0, payload)?;
                keep(&mut self.clients, number, held.writes(text.as_slice())?)
            }
        }
    }
}
