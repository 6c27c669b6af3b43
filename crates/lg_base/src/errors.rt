//! The errors that the server sends: the payload of an ERR packet has a number, a state of five bytes and
//! a text. "Server Error Message Reference" of the MySQL error manual gives the numbers below 50000 and
//! their states; the texts, and the numbers from 50001 on, are this project's own.

ghost use Rattle.lg_base.specs.Errors.{cause_text, cut_name, span_text};
ghost use Rattle.std.specs.Prelude.{◌≡◌, IfOk, string_bytes};

use crate::allocation::Memory;
use crate::byte_list::Bytes;
use crate::output::Out;
use std::alloc::{AllocError, Global};

/// The statements that an account may refuse to take part in.
#[derive(Clone, Copy, Debug, PartialEq, Eq)]
pub enum Operation {
    CreateUser,
    AlterUser,
    DropUser,
    Revoke,
}

/// An error, with what its text names.
#[derive(Debug, PartialEq, Eq, Drop)]
pub enum Code {
    /// The client's response, or a change of user, is malformed.
    BadHandshake,
    /// The login of this user is refused.
    Denied {
        user: Bytes,
        using_password: bool,
    },
    /// The command is none that the server knows.
    UnknownCommand,
    /// The text is no statement. `place` is where the first token stands at which none fits.
    Syntax {
        place: u64,
    },
    /// A packet is longer than the server takes.
    TooLarge,
    /// A packet has another sequence id than the next.
    OutOfOrder,
    /// CREATE USER is needed.
    NeedCreateUser,
    /// CREATE USER is needed, and APPLICATION_PASSWORD_ADMIN would have been enough.
    NeedPasswordAdmin,
    /// The named account stands already, or doesn't stand.
    Cannot {
        operation: Operation,
        user: Bytes,
        any_host: bool,
    },
    /// GRANT to an account that doesn't stand.
    GrantCreates,
    /// An authentication method of this name isn't known.
    NoMethod {
        name: Bytes,
    },
    /// The password is weaker than the policy asks.
    Weak,
    /// The session may do nothing before it has set a new password.
    Sandboxed,
    /// The password has expired, and the client can't take part in a change.
    MustChange,
    /// The account is locked by ACCOUNT LOCK.
    Locked {
        user: Bytes,
    },
    /// The password was used before and may not be used again yet.
    Reused,
    /// The account is locked after failed logins: for how many days, how many are left of them, and how
    /// many failures set the lock. Without `days` the lock has no end.
    Blocked {
        user: Bytes,
        days: Option<u16>,
        left: u32,
        limit: u16,
    },
    /// RETAIN CURRENT PASSWORD where the current one is empty.
    RetainEmpty,
    /// RETAIN CURRENT PASSWORD beside a change of the method.
    RetainMethod,
    /// A password that is too long or holds a byte 00.
    PasswordForm,
    /// An option's number is out of its range.
    OutOfRange,
    /// No further past password can be kept.
    HistoryFull,
    /// The named factor doesn't fit those that the account has.
    FactorNumber,
    /// A user name that is empty, too long, or holds a byte 00.
    NameLength,
    /// The account store failed.
    KeeperFault,
    /// A label that is empty or too long.
    LabelLength,
    /// The verifier of further factors failed.
    VerifierFault,
}

impl Code {
    ghost use Rattle.lg_base.specs.Errors.{ending, named, number_of, state_of, text_of, words_after, words_of};
    ghost use Rattle.std.specs.Prelude.{◌≡◌, ◌++◌, IfOk, OnOk, OnErr, string_bytes};

    /// The error's number.
    pub fn number(&self) -> u16
        ensures { result ≡ number_of self.now }
    {
        match self {
            Code::BadHandshake => 1043,
            Code::Denied { .. } => 1045,
            Code::UnknownCommand => 1047,
            Code::Syntax { .. } => 1064,
            Code::TooLarge => 1153,
            Code::OutOfOrder => 1156,
            Code::NeedCreateUser => 1227,
            Code::NeedPasswordAdmin => 1227,
            Code::Cannot { .. } => 1396,
            Code::GrantCreates => 1410,
            Code::NoMethod { .. } => 1524,
            Code::Weak => 1819,
            Code::Sandboxed => 1820,
            Code::MustChange => 1862,
            Code::Locked { .. } => 3118,
            Code::Reused => 3638,
            Code::Blocked { .. } => 3955,
            Code::RetainEmpty => 50001,
            Code::RetainMethod => 50002,
            Code::PasswordForm => 50003,
            Code::OutOfRange => 50004,
            Code::HistoryFull => 50005,
            Code::FactorNumber => 50006,
            Code::NameLength => 50007,
            Code::KeeperFault => 50008,
            Code::LabelLength => 50009,
            Code::VerifierFault => 50010,
        }
    }

    /// The state of the standard that goes with the number.
    pub fn state(&self) -> [u8; 5]
        ensures { result ≡ state_of self.now }
    {
        match self {
            Code::BadHandshake | Code::UnknownCommand | Code::TooLarge | Code::OutOfOrder =>
                *b"08S01",
            Code::Denied { .. } => *b"28000",
            Code::Syntax { .. }
            | Code::NeedCreateUser
            | Code::NeedPasswordAdmin
            | Code::GrantCreates => *b"42000",
            _ => *b"HY000",
        }
    }

    /// Adds the text at the end. A name in it is cut after 64 bytes. After `Memory` nothing was added.
    pub fn text(&self, out: &mut Out) -> Result<(), Memory>
        ensures ok { OnOk result (out.new ≡ out.old ++ text_of self.now) }
        ensures err { OnErr result (out.new ≡ out.old) }
    {
        let mut text = out.beside();
        text.bytes(self.words())?;
        text.bytes(self.named())?;
        text.bytes(self.words_after())?;
        let ending = self.ending(out.allocator())?;
        text.bytes(ending.as_bytes())?;
        out.bytes(text.as_slice())
    }

    /// The words that the text begins with.
    #[tactic(auto, unfolding(crate::specs::Errors::words_of))]
    fn words(&self) -> &'static [u8]
        ensures { result.now ≡ words_of self.now }
    {
        match self {
            Code::BadHandshake => b"Bad handshake",
            Code::Denied { .. } => b"Access denied for user '",
            Code::UnknownCommand => b"Unknown command",
            Code::Syntax { .. } => b"You have an error in your SQL syntax at place ",
            Code::TooLarge => b"Got a packet bigger than the limit",
            Code::OutOfOrder => b"Got packets out of order",
            Code::NeedCreateUser => {
                b"Access denied; you need the CREATE USER privilege for this operation"
            }
            Code::NeedPasswordAdmin => {
                b"Access denied; you need the APPLICATION_PASSWORD_ADMIN or CREATE USER privilege for this operation"
            }
            Code::Cannot { operation, .. } => operation.failed_words(),
            Code::GrantCreates => b"GRANT does not create an account",
            Code::NoMethod { .. } => b"Plugin '",
            Code::Weak => b"Your password does not satisfy the current policy requirements",
            Code::Sandboxed => {
                b"You must reset your password using ALTER USER before executing this statement"
            }
            Code::MustChange => {
                b"Your password has expired; log in with a client that supports expired passwords"
            }
            Code::Locked { .. } => b"Access denied for user '",
            Code::Reused => b"The password contradicts the password history policy",
            Code::Blocked { .. } => b"Access denied for user '",
            Code::RetainEmpty => b"The current password is empty and cannot be retained",
            Code::RetainMethod => {
                b"The current password cannot be retained while the method changes"
            }
            Code::PasswordForm => b"A password has at most 256 bytes and no zero byte",
            Code::OutOfRange => b"A number is out of its range",
            Code::HistoryFull => b"The account keeps 256 passwords that may not be used again yet",
            Code::FactorNumber => b"The factor does not fit the account",
            Code::NameLength => b"A user name has 1 to 32 bytes and no zero byte",
            Code::KeeperFault => b"The account store failed",
            Code::LabelLength => b"A label has 1 to 64 bytes",
            Code::VerifierFault => b"The verifier failed",
        }
    }

    /// The name that the text has.
    #[tactic(auto, unfolding(crate::specs::Errors::named))]
    fn named(&self) -> &[u8]
        ensures { result.now ≡ named self.now }
    {
        match self {
            Code::Denied { user, .. } => cut(user.as_slice()),
            Code::Cannot { user, .. } => cut(user.as_slice()),
            Code::NoMethod { name } => cut(name.as_slice()),
            Code::Locked { user } => cut(user.as_slice()),
            Code::Blocked { user, .. } => cut(user.as_slice()),
            _ => b"",
        }
    }

    /// The words behind the name.
    #[tactic(auto, unfolding(crate::specs::Errors::words_after))]
    fn words_after(&self) -> &'static [u8]
        ensures { result.now ≡ words_after self.now }
    {
        match self {
            Code::Denied {
                using_password: true,
                ..
            } => b"'@'localhost' (using password: YES)",
            Code::Denied {
                using_password: false,
                ..
            } => b"'@'localhost' (using password: NO)",
            Code::Cannot { any_host: true, .. } => b"'@'%'",
            Code::Cannot {
                any_host: false,
                ..
            } => b"'@'localhost'",
            Code::NoMethod { .. } => b"' is not loaded",
            Code::Locked { .. } => b"'@'localhost'. Account is locked.",
            Code::Blocked { .. } => b"'@'localhost'. Account is blocked for ",
            _ => b"",
        }
    }

    /// The numbers at the end, with the words between and behind them.
    #[tactic(auto, unfolding(crate::specs::Errors::ending))]
    fn ending(&self, alloc: Global) -> Result<String, Memory>
        ensures { IfOk result (λ text. string_bytes text ≡ ending self.now) }
    {
        match self {
            Code::Syntax { place } => Ok(place.to_string(alloc)?),
            Code::Blocked {
                days,
                left,
                limit,
                ..
            } => {
                let mut text = span(alloc, *days, *left)?;
                text.push_str(cause(alloc, *limit)?.as_str())?;
                Ok(text)
            }
            _ => Ok(String::new(alloc)),
        }
    }
}

impl Operation {
    ghost use Rattle.lg_base.specs.Errors.{words_of};
    ghost use Rattle.lg_base.specs.declared.errors.Code.TheVariants.{Cannot};
    ghost use Rattle.std.specs.Prelude.{◌≡◌, List, ℕ, Bool};

    /// How the text of a statement that failed begins.
    #[tactic(auto, unfolding(crate::specs::Errors::words_of))]
    fn failed_words(self) -> &'static [u8]
        ensures { (user : List ℕ) (any_host : Bool) → result.now ≡ words_of (Cannot self user any_host) }
    {
        match self {
            Operation::CreateUser => b"Operation CREATE USER failed for '",
            Operation::AlterUser => b"Operation ALTER USER failed for '",
            Operation::DropUser => b"Operation DROP USER failed for '",
            Operation::Revoke => b"Operation REVOKE failed for '",
        }
    }
}

/// The part of a name that a text shows.
fn cut(name: &[u8]) -> &[u8]
    ensures { result.now ≡ cut_name name.now }
{
    if name.len() <= 64 {
        return name;
    }
    let (front, _) = name.split_at(64);
    front
}

/// How long a lock is, and how much of it is left.
#[tactic(auto, unfolding(crate::specs::Errors::span_text))]
fn span(alloc: Global, days: Option<u16>, left: u32) -> Result<String, AllocError>
    ensures { IfOk result (λ text. string_bytes text ≡ span_text days left) }
{
    match days {
        None => String::from_str(alloc, "unlimited day(s) (unlimited day(s) remaining)"),
        Some(days) => format!(in alloc; "{days} day(s) ({left} day(s) remaining)"),
    }
}

/// How many failures set a lock.
#[tactic(auto, unfolding(crate::specs::Errors::cause_text))]
fn cause(alloc: Global, limit: u16) -> Result<String, AllocError>
    ensures { IfOk result (λ text. string_bytes text ≡ cause_text limit) }
{
    format!(in alloc; " due to {limit} consecutive failed logins.")
}
