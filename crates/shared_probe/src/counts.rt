//! How attempts and changes ended.

use crate::calls::Tried;
use account_history::Reply;

/// How many attempts ended so, and how many changes were done.
#[derive(Clone, Copy, Debug, PartialEq, Eq)]
pub struct Counts {
    pub opened: u64,
    pub denied: u64,
    pub blocked: u64,
    /// Attempts and changes with another end.
    pub others: u64,
    /// Attempts that opened by a password that was retired before.
    pub retired: u64,
    pub changed: u64,
}

impl Counts {
    /// No attempt and no change.
    pub fn none() -> Counts {
        Counts {
            opened: 0,
            denied: 0,
            blocked: 0,
            others: 0,
            retired: 0,
            changed: 0,
        }
    }

    /// Both counts together.
    pub fn plus(self, other: Counts) -> Counts {
        Counts {
            opened: self.opened.wrapping_add(other.opened),
            denied: self.denied.wrapping_add(other.denied),
            blocked: self.blocked.wrapping_add(other.blocked),
            others: self.others.wrapping_add(other.others),
            retired: self.retired.wrapping_add(other.retired),
            changed: self.changed.wrapping_add(other.changed),
        }
    }

    /// One more attempt.
    pub fn with(self, tried: &Option<Tried>) -> Counts {
        let mut counts = self;
        match tried {
            Some(tried) => match tried.reply {
                Reply::Opened { .. } => counts.opened = counts.opened.wrapping_add(1),
                Reply::Denied { .. } => counts.denied = counts.denied.wrapping_add(1),
                Reply::Blocked { .. } => counts.blocked = counts.blocked.wrapping_add(1),
                _ => counts.others = counts.others.wrapping_add(1),
            },
            None => counts.others = counts.others.wrapping_add(1),
        }
        counts
    }

    /// An attempt with the password of this number. It was retired where the stamp that was told before is greater, or a newer
    /// password was known to be set.
    pub fn with_number(self, tried: &Option<Tried>, number: u64) -> Counts {
        let mut counts = self;
        if let Some(tried) = tried {
            let is_open = matches!(tried.reply, Reply::Opened { .. });
            if is_open && number < tried.stamp.max(tried.set) {
                counts.retired = counts.retired.wrapping_add(1);
            }
        }
        counts
    }

    /// One more change, if it was done.
    pub fn with_change(self, is_done: bool) -> Counts {
        let mut counts = self;
        if is_done {
            counts.changed = counts.changed.wrapping_add(1);
        } else {
            counts.others = counts.others.wrapping_add(1);
        }
        counts
    }
}
