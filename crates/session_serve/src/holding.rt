//! What a session holds between two turns.

ghost use Rattle.account_history.specs.declared.entries.Who.{Who};
ghost use Rattle.factor_chain.specs.declared.credentials.Look.{Look};
ghost use Rattle.serve_talk.specs.Fitting as fitting;
ghost use Rattle.session_serve.specs.Holding.{paper_of};
ghost use Rattle.std.specs.Prelude.{◌≡◌, ◌-◌, ℕ};

use account_history::Reply;
use shared_accounts::{Late, Ticket};
use std::mem;

/// What a session has of its last call.
#[derive(Drop)]
pub enum Paper {
    Nothing,
    OnLook(Ticket),
    Late(Late),
}

/// What a session holds. Only contracts need more of it than the paper: the account that the session opened on, how many packets
/// it may still read and how many calls it may make before the next one. These never run out.
#[derive(Drop)]
pub struct Held {
    pub paper: Paper,
    pub account: Option<u64>,
    pub packets: u32,
    pub calls: u8,
}

/// The most packets that a session reads: the response, the answer to a switch, the password, and 1,048,576 commands.
const MOST_PACKETS: u32 = 1_048_579;

/// The most calls between two packets.
const MOST_CALLS: u8 = 5;

/// The account that a reply opens.
fn opened_by(reply: Reply) -> Option<u64>
    ensures { result ≡ fitting.opened_by reply }
{
    match reply {
        Reply::Opened { account, .. } => Some(account),
        Reply::Sandbox { account, .. } => Some(account),
        Reply::Blocked { .. } => None,
        Reply::Denied { .. } => None,
        Reply::Locked => None,
        Reply::MustChange => None,
    }
}

impl Held {
    ghost use Rattle.serve_talk.specs.Fitting as fitting;
    ghost use Rattle.session_serve.specs.declared.holding.Paper.TheVariants as paper;
    ghost use Rattle.std.specs.Prelude.{None, Some};

    /// Nothing, before the greeting.
    pub fn new() -> Held
        ensures { result ≡ record { paper = paper.Nothing; account = None; packets = 1048579; calls = 0 } }
    {
        Held {
            paper: Paper::Nothing,
            account: None,
            packets: MOST_PACKETS,
            calls: 0,
        }
    }

    /// A packet was read.
    pub fn read(&mut self)
        ensures { self.new ≡ record self.old { packets = self.old.packets - 1; calls = 5 } }
    {
        self.packets = self.packets.saturating_sub(1);
        self.calls = MOST_CALLS;
    }

    /// A call is made with a ticket.
    pub fn take_ticket(&mut self) -> Ticket
        requires { (who : Who) × (look : Look) × (number : ℕ) × (paper_of self.old.paper ≡ fitting.OnLook who look number) }
        ensures ticket { self.old.paper ≡ paper.OnLook result }
        ensures left { self.new ≡ record self.old { paper = paper.Nothing; calls = self.old.calls - 1 } }
    {
        self.calls = self.calls.saturating_sub(1);
        match mem::replace(&mut self.paper, Paper::Nothing) {
            Paper::OnLook(ticket) => ticket,
            Paper::Nothing => unreachable!(),
            Paper::Late(_) => unreachable!(),
        }
    }

    /// A call is made with a stale answer.
    pub fn take_late(&mut self) -> Late
        requires { (who : Who) × (number : ℕ) × (paper_of self.old.paper ≡ fitting.Late who number) }
        ensures late { self.old.paper ≡ paper.Late result }
        ensures left { self.new ≡ record self.old { paper = paper.Nothing; calls = self.old.calls - 1 } }
    {
        self.calls = self.calls.saturating_sub(1);
        match mem::replace(&mut self.paper, Paper::Nothing) {
            Paper::Late(late) => late,
            Paper::Nothing => unreachable!(),
            Paper::OnLook(_) => unreachable!(),
        }
    }

    /// A call is made that needs nothing.
    pub fn call(&mut self)
        ensures { self.new ≡ record self.old { calls = self.old.calls - 1 } }
    {
        self.calls = self.calls.saturating_sub(1);
    }

    /// An attempt was settled.
    pub fn settled(&mut self, reply: Reply)
        ensures { self.new ≡ record self.old { account = fitting.opened_by reply } }
    {
        self.account = opened_by(reply);
    }

    /// A look was answered.
    pub fn looked(&mut self, ticket: Ticket)
        ensures { self.new ≡ record self.old { paper = paper.OnLook ticket } }
    {
        self.paper = Paper::OnLook(ticket);
    }

    /// An answer was stale.
    pub fn was_late(&mut self, late: Late)
        ensures { self.new ≡ record self.old { paper = paper.Late late } }
    {
        self.paper = Paper::Late(late);
    }
}
