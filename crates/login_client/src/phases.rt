//! Where a login stands, and the step that it takes at what the server says: one function a phase.
//!
//! MySQL client/server protocol documentation, "Connection Phase".

ghost use Rattle.login_client.specs.Claims.{AreUsable};
ghost use Rattle.login_client.specs.Zeros.{HasNoZero};
ghost use Rattle.login_client.specs.Conversation.{answered, asked, cached, clear, ended, factor, factors, full, greeted, nonced, opened_by, responded, response_to, switched};
ghost use Rattle.login_client.specs.Methods.{nonce_of};
ghost use Rattle.login_client.specs.Phases.{Stands, end_of, secrets_from, talk_at};
ghost use Rattle.login_client.specs.Talk.{Hears, Over, IsWaiting, hearing};
ghost use Rattle.std.specs.Prelude.{◌≡◌, ℕ, List, Option, Some, None, IfOk};

use crate::claims::Claim;
use crate::ends::{LoginEnd, Reason};
use crate::hearing::Heard;
use crate::methods::{Method, answer, clear, first_method, method_of, name_of, nonce_of};
use auth_packets::{Response, Switch};
use lg_base::{Bytes, Memory, Out};
use std::alloc::Global;

/// The longest packet that the client takes, as it tells the server.
const MAX_PACKET: u32 = 16_777_216;

/// The character set that the client tells the server.
const CHARSET: u8 = 255;

/// Which further factor may be asked for next.
#[derive(Clone, Copy, Debug, PartialEq, Eq)]
pub enum Next {
    Second,
    Third,
    Neither,
}

/// Where a login stands.
#[derive(Clone, Copy, Debug, PartialEq, Eq)]
pub enum Phase {
    /// Before the greeting.
    Connected,
    /// After the response, whose answer was by this method: a switch may follow.
    Responded(Method),
    /// After the answer to a switch: the server may say how the answer was.
    Answered(Method),
    /// Further factors may be asked for.
    Factors(Next),
    Ended(LoginEnd),
}

/// What a client does at a payload: it may say one of its own, and stands at a phase then.
#[derive(Debug, Drop)]
pub struct Step {
    pub says: Option<Bytes>,
    pub phase: Phase,
}

impl Phase {
    /// How the login ended, if it did.
    pub fn end(self) -> Option<LoginEnd>
        ensures { result ≡ end_of self }
    {
        match self {
            Phase::Ended(end) => Some(end),
            Phase::Connected | Phase::Responded(_) | Phase::Answered(_) | Phase::Factors(_) => None,
        }
    }
}

/// The login is over.
fn over(end: LoginEnd) -> Step
    ensures { result ≡ record { says = None; phase = Phase.Ended end } }
{
    Step {
        says: None,
        phase: Phase::Ended(end),
    }
}

/// A payload is said.
fn says(payload: Bytes, phase: Phase) -> Step
    ensures { result ≡ record { says = Some payload; phase = phase } }
{
    Step {
        says: Some(payload),
        phase,
    }
}

/// OK or ERR, and nothing else.
#[tactic(auto, unfolding(crate::specs::Conversation::ended))]
fn end_at(heard: &Heard) -> LoginEnd
    ensures { Over result ≡ ended heard.now }
{
    match heard {
        Heard::Accepts => LoginEnd::Opened,
        Heard::Refuses { number } => LoginEnd::Refused { number: *number },
        Heard::BrokenOk { at } | Heard::BrokenErr { at } => LoginEnd::Malformed { at: *at },
        _ => LoginEnd::Malformed { at: 0 },
    }
}

impl Claim {
    /// Says a secret in the clear, where that is permitted.
    #[tactic(auto, using(crate::proofs::Standing::stands_said), unfolding(crate::specs::Conversation::clear))]
    fn say_clear(&self, alloc: Global, secret: &[u8], then: Phase) -> Result<Step, Memory>
        requires { IsWaiting (talk_at self.now then) }
        ensures { IfOk result (λ step. Stands self.now step (clear self.now (Some secret.now) (hearing (talk_at self.now then)))) }
    {
        if !self.local {
            return Ok(over(LoginEnd::WontSend(Reason::NotLocal)));
        }
        if !self.options.clear {
            return Ok(over(LoginEnd::WontSend(Reason::ClearNotPermitted)));
        }
        Ok(says(clear(alloc, secret)?, then))
    }

    /// Says the secret of a further factor, by the method that it asks for.
    #[tactic(auto, unfolding(crate::specs::Conversation::asked, crate::specs::Conversation::clear))]
    fn say_further(
        &self,
        alloc: Global,
        method: Method,
        secret: &Option<Bytes>,
        then: Phase,
    ) -> Result<Step, Memory>
        requires { IsWaiting (talk_at self.now then) }
        ensures { IfOk result (λ step. Stands self.now step (asked self.now method secret.now (hearing (talk_at self.now then)))) }
    {
        match method {
            Method::Native | Method::CachingSha2 | Method::Unknown => {
                Ok(over(LoginEnd::WontSend(Reason::UnknownMethod)))
            }
            Method::Clear => match secret {
                None => Ok(over(LoginEnd::WontSend(Reason::NoSecret))),
                Some(secret) => self.say_clear(alloc, secret.as_slice(), then),
            },
        }
    }

    /// At a payload where a further factor may be asked for, of which this is the secret.
    #[tactic(auto, unfolding(crate::specs::Conversation::factor))]
    fn on_factor(
        &self,
        alloc: Global,
        heard: &Heard,
        secret: &Option<Bytes>,
        then: Phase,
    ) -> Result<Step, Memory>
        requires { IsWaiting (talk_at self.now then) }
        ensures { IfOk result (λ step. Stands self.now step (factor self.now secret.now (hearing (talk_at self.now then)) heard.now)) }
    {
        match heard {
            Heard::Asks(asked) => {
                let method = method_of(asked.plugin.as_slice());
                self.say_further(alloc, method, secret, then)
            }
            Heard::BrokenFactor { at } => Ok(over(LoginEnd::Malformed { at: *at })),
            _ => Ok(over(end_at(heard))),
        }
    }

    /// At a payload where only the named factor and those after it may be asked for.
    #[tactic(auto, unfolding(crate::specs::Conversation::factors))]
    fn on_factors(&self, alloc: Global, heard: &Heard, next: Next) -> Result<Step, Memory>
        ensures { IfOk result (λ step. Stands self.now step (factors self.now (secrets_from self.now next) heard.now)) }
    {
        let secrets = &self.secrets;
        match next {
            Next::Second => {
                self.on_factor(alloc, heard, &secrets.second, Phase::Factors(Next::Third))
            }
            Next::Third => {
                self.on_factor(alloc, heard, &secrets.third, Phase::Factors(Next::Neither))
            }
            Next::Neither => Ok(over(end_at(heard))),
        }
    }

    /// At 01 04, which asks for the password itself.
    #[tactic(auto, unfolding(crate::specs::Conversation::full))]
    fn on_full(&self, alloc: Global) -> Result<Step, Memory>
        ensures { IfOk result (λ step. Stands self.now step (full self.now)) }
    {
        if self.local {
            let text = clear(alloc, self.secrets.first.as_slice())?;
            return Ok(says(text, Phase::Factors(Next::Second)));
        }
        Ok(over(LoginEnd::WontSend(Reason::NotLocal)))
    }

    /// At a payload after an answer by caching_sha2_password.
    #[tactic(auto, unfolding(crate::specs::Conversation::cached))]
    fn on_cached(&self, alloc: Global, heard: &Heard) -> Result<Step, Memory>
        ensures { IfOk result (λ step. Stands self.now step (cached self.now heard.now)) }
    {
        match heard {
            Heard::Fast => Ok(Step {
                says: None,
                phase: Phase::Factors(Next::Second),
            }),
            Heard::Full => self.on_full(alloc),
            _ => self.on_factors(alloc, heard, Next::Second),
        }
    }

    /// At a payload after an answer by a method, where no switch may follow.
    #[tactic(auto, unfolding(crate::specs::Conversation::answered))]
    fn on_answered(&self, alloc: Global, heard: &Heard, method: Method) -> Result<Step, Memory>
        ensures { IfOk result (λ step. Stands self.now step (answered self.now method heard.now)) }
    {
        match method {
            Method::CachingSha2 => self.on_cached(alloc, heard),
            Method::Native | Method::Clear | Method::Unknown => {
                self.on_factors(alloc, heard, Next::Second)
            }
        }
    }

    /// Answers the nonce of a switch, if its data is one.
    #[tactic(auto, unfolding(crate::specs::Conversation::nonced))]
    fn say_answer(
        &self,
        alloc: Global,
        method: Method,
        nonce: Option<[u8; 20]>,
        at: u64,
    ) -> Result<Step, Memory>
        ensures { IfOk result (λ step. Stands self.now step (nonced self.now method nonce at)) }
    {
        match nonce {
            None => Ok(over(LoginEnd::Malformed { at })),
            Some(nonce) => {
                let answer = answer(alloc, method, self.secrets.first.as_slice(), &nonce)?;
                Ok(says(answer, Phase::Answered(method)))
            }
        }
    }

    /// At a switch to a method, whose data begins at a place of its payload.
    #[tactic(auto, unfolding(crate::specs::Conversation::switched))]
    fn on_switch(
        &self,
        alloc: Global,
        method: Method,
        switch: &Switch,
        at: u64,
    ) -> Result<Step, Memory>
        ensures { IfOk result (λ step. Stands self.now step (switched self.now method switch.now at)) }
    {
        match method {
            Method::Native | Method::CachingSha2 => {
                let nonce = nonce_of(switch.body.as_slice());
                self.say_answer(alloc, method, nonce, at)
            }
            Method::Clear => self.say_clear(
                alloc,
                self.secrets.first.as_slice(),
                Phase::Answered(Method::Clear),
            ),
            Method::Unknown => Ok(over(LoginEnd::WontSend(Reason::UnknownMethod))),
        }
    }

    /// At a payload after the response.
    #[tactic(auto, unfolding(crate::specs::Conversation::responded))]
    fn on_responded(&self, alloc: Global, heard: &Heard, method: Method) -> Result<Step, Memory>
        ensures { IfOk result (λ step. Stands self.now step (responded self.now method heard.now)) }
    {
        match heard {
            Heard::Switches { switch, at } => {
                let method = method_of(switch.plugin.as_slice());
                self.on_switch(alloc, method, switch, *at)
            }
            Heard::BrokenSwitch { at } => Ok(over(LoginEnd::Malformed { at: *at })),
            _ => self.on_answered(alloc, heard, method),
        }
    }

    /// Answers a greeting's nonce.
    #[tactic(auto, unfolding(crate::specs::Conversation::response_to))]
    fn say_response(&self, alloc: Global, method: Method, nonce: &[u8; 20]) -> Result<Step, Memory>
        requires user { HasNoZero self.now.user }
        requires flags { AreUsable self.now.options }
        ensures { IfOk result (λ step. Stands self.now step (opened_by self.now method nonce.now)) }
    {
        let response = Response {
            flags: self.options.flags,
            max_packet: MAX_PACKET,
            charset: CHARSET,
            user: Bytes::copy(alloc, self.user.as_slice())?,
            auth: answer(alloc, method, self.secrets.first.as_slice(), nonce)?,
            database: None,
            plugin: Bytes::copy(alloc, name_of(method))?,
            attributes: None,
            rest: Bytes::copy(alloc, &[])?,
        };
        let mut text = Out::new(alloc);
        response.write(&mut text)?;
        Ok(says(text.into_bytes(), Phase::Responded(method)))
    }

    /// At the first payload.
    #[tactic(auto, unfolding(crate::specs::Conversation::greeted))]
    fn on_greeting(&self, alloc: Global, heard: &Heard) -> Result<Step, Memory>
        requires user { HasNoZero self.now.user }
        requires flags { AreUsable self.now.options }
        ensures { IfOk result (λ step. Stands self.now step (greeted self.now heard.now)) }
    {
        match heard {
            Heard::Greets(greeting) => {
                let method = first_method(method_of(greeting.plugin.as_slice()));
                self.say_response(alloc, method, &greeting.nonce)
            }
            Heard::Refuses { number } => Ok(over(LoginEnd::Refused { number: *number })),
            Heard::BrokenGreeting { at } | Heard::BrokenErr { at } => {
                Ok(over(LoginEnd::Malformed { at: *at }))
            }
            _ => Ok(over(LoginEnd::Malformed { at: 0 })),
        }
    }

    /// The step at a payload, by where the login stands.
    pub fn step(&self, alloc: Global, phase: Phase, heard: &Heard) -> Result<Step, Memory>
        requires user { HasNoZero self.now.user }
        requires flags { AreUsable self.now.options }
        ensures { IfOk result (λ step. Stands self.now step (hearing (talk_at self.now phase) heard.now)) }
    {
        match phase {
            Phase::Connected => self.on_greeting(alloc, heard),
            Phase::Responded(method) => self.on_responded(alloc, heard, method),
            Phase::Answered(method) => self.on_answered(alloc, heard, method),
            Phase::Factors(next) => self.on_factors(alloc, heard, next),
            Phase::Ended(end) => Ok(over(end)),
        }
    }
}
