//! What a script says: the accounts and settings that stand at the start, and what happens then.

use account_history::Opening;
use account_rules::Settings;
use lg_base::{Bytes, Items};
use login_client::Secrets;

/// What stands at the start.
#[derive(Debug, Drop)]
pub struct Setup {
    /// The accounts beside `root`. No two have one user.
    pub accounts: Items<Opening>,
    pub settings: Settings,
}

/// What happens. Sessions are numbered from 1.
#[derive(Debug, PartialEq, Eq, Drop)]
pub enum Event {
    /// The clock reads this from here on.
    Clock {
        reading: u64,
    },
    /// The account with the number 1 asks for what this text says.
    Admin {
        text: Bytes,
    },
    /// A session begins whose peer is the script.
    Open {
        session: u32,
    },
    /// A session begins whose peer is a login client.
    Client {
        session: u32,
        flags: u32,
        user: Bytes,
        secrets: Secrets,
    },
    /// The peer of a session sends bytes.
    FromPeer {
        session: u32,
        bytes: Bytes,
    },
    /// At most so many further bytes of a session's client come to the server.
    Up {
        session: u32,
        most: u64,
    },
    /// At most so many further bytes of the server come to a session's client.
    Down {
        session: u32,
        most: u64,
    },
    /// The one thing that a session waits for is done.
    Step {
        session: u32,
    },
    /// What a session can do is done, as long as there is something.
    Run {
        session: u32,
    },
    /// The client of a session writes COM_QUERY with this text.
    Say {
        session: u32,
        text: Bytes,
    },
    /// The client of a session writes this payload as a command.
    Command {
        session: u32,
        payload: Bytes,
    },
    /// The peer of a session ends.
    Close {
        session: u32,
    },
    /// The link of a session fails at its next read.
    Cut {
        session: u32,
    },
    /// The keeper of the accounts fails at its next call.
    FailKeeper,
}
