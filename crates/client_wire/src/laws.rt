//! Laws of clients over bytes, for the crates that stand on this one. The functions do nothing: what they say is in
//! their contracts.

ghost use Rattle.client_wire.specs.Laws.{GettingGoesOn, GettingIsExchange};

/// However the bytes are cut, it comes to the same: for further bytes a client writes what it wrote before, and what it
/// writes for them from where it then stood.
pub fn getting_goes_on()
    ensures { GettingGoesOn }
{}

/// What came of bytes is an exchange: the talk came to its end, and what stands behind isn't read; or the bytes show a
/// fault of framing; or the talk waits for a further packet.
pub fn gettings_are_exchanges()
    ensures { GettingIsExchange }
{}
