//! The inputs of lines that give nothing back.

use crate::looks::{look, shown_of};
use account_history::{Reply, StmtReply};
use lg_base::{Bytes, Code, Host, Memory};
use login_lock::{LockRule, LockTime};
use packet_frame::{FrameFault, Packet};
use session_talk::Input;
use std::alloc::Global;

/// A packet of one piece.
pub fn packet(alloc: Global, id: u8, payload: &[u8]) -> Result<Packet, Memory> {
    Ok(Packet {
        first: id,
        last: id,
        at: 0,
        payload: Bytes::copy(alloc, payload)?,
    })
}

/// Three failed logins lock an account for so many days, or for ever where they are no number.
fn rule_of(days: &str) -> LockRule {
    let time = match days.parse::<u16>() {
        Ok(days) => LockTime::Days(days),
        Err(_) => LockTime::Unbounded,
    };
    LockRule { attempts: 3, time }
}

fn reply_of(words: &[&str]) -> Option<Reply> {
    match words {
        ["opened"] => Some(Reply::Opened {
            account: 3,
            host: Host::Localhost,
        }),
        ["sandbox"] => Some(Reply::Sandbox {
            account: 3,
            host: Host::Localhost,
        }),
        ["denied"] => Some(Reply::Denied {
            using_password: true,
        }),
        ["blank"] => Some(Reply::Denied {
            using_password: false,
        }),
        ["locked"] => Some(Reply::Locked),
        ["blocked", days, left] => Some(Reply::Blocked {
            rule: rule_of(days),
            left: left.parse::<u32>().unwrap_or(0),
        }),
        _ => None,
    }
}

/// The reply to a statement.
fn statement_reply_of(word: &str) -> Option<StmtReply> {
    match word {
        "done" => Some(StmtReply::Done),
        "reused" => Some(StmtReply::Refused(Code::Reused)),
        "fault" => Some(StmtReply::Refused(Code::KeeperFault)),
        _ => None,
    }
}

fn packet_input(alloc: Global, id: &str, text: &str) -> Result<Option<Input>, Memory> {
    let (Ok(id), Ok(payload)) = (id.parse::<u8>(), hex::decode(alloc, text)) else {
        return Ok(None);
    };
    Ok(Some(Input::Packet(packet(alloc, id, payload.as_slice())?)))
}

fn look_input(alloc: Global, shown: &str, stamp: &str) -> Result<Option<Input>, Memory> {
    let (Some(shown), Ok(stamp)) = (shown_of(shown), stamp.parse::<u64>()) else {
        return Ok(None);
    };
    Ok(Some(Input::Looked(look(alloc, shown, stamp)?)))
}

/// The input of a line, if it is one.
pub fn plain_input(alloc: Global, words: &[&str]) -> Result<Option<Input>, Memory> {
    match words {
        ["packet", id, text] => packet_input(alloc, id, text),
        ["drawn", text] => Ok(<[u8; 20]>::try_from(text.as_bytes()).ok().map(Input::Drawn)),
        ["looked", shown, stamp] => look_input(alloc, shown, stamp),
        ["ran", reply] => Ok(statement_reply_of(reply).map(Input::Ran)),
        ["memory"] => Ok(Some(Input::Frame(FrameFault::Memory))),
        _ => Ok(reply_of(words).map(Input::Settled)),
    }
}
