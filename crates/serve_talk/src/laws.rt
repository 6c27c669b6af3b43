//! Laws of sessions that are served. Each function does nothing: its contract is the law.

ghost use Rattle.serve_talk.specs.Fitting.{SessionsFit};
ghost use Rattle.serve_talk.specs.Paths.{PathsAreServed};

/// A session makes its calls in the order in which they may be made: it settles or commits on the ticket of the very look
/// that it checked or prepared on, at most five calls come after a packet, and it reads at most so many packets. It ends by
/// what it was sent and answered.
pub fn sessions_fit()
    ensures { SessionsFit }
{}
/// Turns of a session one after another, and what they end in, serve it.
pub fn paths_are_served()
    ensures { PathsAreServed }
{}
