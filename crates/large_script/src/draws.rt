//! Numbers that are drawn by a linear congruence.

ghost use Rattle.large_script.specs.Draws.{drawn_at, next_state, state_behind};
ghost use Rattle.std.specs.Prelude.{◌≡◌};

/// What the states are below.
const MODULUS: u64 = 2_147_483_648;

/// A state of the draws.
#[derive(Clone, Copy, Debug, PartialEq, Eq)]
pub struct Draws {
    pub state: u32,
}

/// What is drawn for a session.
#[derive(Clone, Copy, Debug, PartialEq, Eq)]
pub struct Drawn {
    /// Whether the privileges are flushed before it.
    pub flush: u32,
    /// Who logs in.
    pub user: u32,
    /// Whether that is with the right password.
    pub secret: u32,
}

impl Draws {
    /// The draws of a number, before the first.
    #[tactic(auto, unfolding(crate::specs::Draws::state_behind))]
    pub fn new(number: u32) -> Draws
        ensures { result.state ≡ state_behind 0 number }
    {
        Draws {
            state: (u64::from(number) % MODULUS) as u32,
        }
    }

    /// The next number.
    fn draw(&mut self) -> u32
        ensures state { self.new.state ≡ next_state self.old.state }
        ensures number { result ≡ drawn_at self.new.state }
    {
        self.state = ((u64::from(self.state) * 1_103_515_245 + 12_345) % MODULUS) as u32;
        self.state / 65_536
    }

    /// What is drawn for the next session.
    pub fn draw_session(&mut self) -> Drawn
        ensures state { self.new.state ≡ next_state (next_state (next_state self.old.state)) }
        ensures drawn { result ≡ record {
          flush = drawn_at (next_state self.old.state);
          user = drawn_at (next_state (next_state self.old.state));
          secret = drawn_at (next_state (next_state (next_state self.old.state)));
        } }
    {
        let flush = self.draw();
        let user = self.draw();
        let secret = self.draw();
        Drawn {
            flush,
            user,
            secret,
        }
    }
}
