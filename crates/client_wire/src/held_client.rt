//! A login client that is kept between events.

ghost use Rattle.client_wire.specs.Ends.{standing_of};
ghost use Rattle.client_wire.specs.Waiting.{waits_by};
ghost use Rattle.std.specs.Prelude.{◌≡◌, true};

use crate::ends::ClientEnd;
use login_client::LoginEnd;
use packet_stream::Queue;

/// A client, the bytes that are under way to it and from it, and its result, once that was told.
#[derive(Drop)]
pub struct HeldClient {
    pub end: ClientEnd,
    pub coming: Queue,
    pub leaving: Queue,
    pub result: Option<LoginEnd>,
    pub ghost waits: { waits_by result (standing_of end).at ≡ true },
}
