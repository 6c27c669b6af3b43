//! Laws of both ends of a connection. Each function does nothing: its contract is the law.

ghost use Rattle.session_world.specs.BothEnds.{EndedOnceTold, OpenedByItsReply, OpenedOnceTold, RefusedByItsError};

/// A login client has opened only where the reply to its session's first attempt opens.
pub fn opened_by_its_reply()
    ensures { OpenedByItsReply }
{}

/// It was refused with a number only where its session sent an error with that number.
pub fn refused_by_its_error()
    ensures { RefusedByItsError }
{}

/// A client to which all has come down that its session sent has ended as that reply tells.
pub fn ended_once_told()
    ensures { EndedOnceTold }
{}

/// So it has opened, where that reply opens.
pub fn opened_once_told()
    ensures { OpenedOnceTold }
{}
