//! A session that is kept between events.

ghost use Rattle.session_engine.specs.Standing.{next_of, talk_of_session};
ghost use Rattle.session_talk.specs.Turns.{asked};
ghost use Rattle.session_world.specs.Begun.{is_begun};
ghost use Rattle.std.specs.Prelude.{◌≡◌, true};

use crate::turns::Seat;
use session_talk::Ask;

/// A session, and what it asks for.
#[derive(Drop)]
pub struct Held {
    pub seat: Seat,
    pub asks: Ask,
    pub ghost fits: { (asks ≡ asked (next_of seat.session) (talk_of_session seat.session)) × (is_begun (talk_of_session seat.session) ≡ true) },
}
