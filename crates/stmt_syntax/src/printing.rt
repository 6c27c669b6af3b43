//! Statements as texts: keywords in upper case, one space between tokens, names and strings in `'`,
//! options in the order of their fields.

ghost use Rattle.std.specs.Prelude.{◌≡◌, ◌++◌, OnOk, codes, decimal, flat_map};
ghost use Rattle.stmt_syntax.specs.Printing.{and_factor_text, attempts_text, auth_text, change_text, expire_text, factor_text, history_text, lock_text, lock_time_text, method_text, name_text, optional_auth_text, options_text, password_text, printed, privileges_text, retain_text, reuse_text, target_text};
ghost use Rattle.stmt_tokens.specs.Quoting.{quoted, written_byte};

use lg_base::{Bytes, Host, Memory, Name, Out};
use stmt_rules::{
    Auth, Bound, Change, Expire, FactorAuth, Options, Privileges, Statement, Target, Time,
};

/// A byte within quotes.
fn put_byte(byte: u8, out: &mut Out) -> Result<(), Memory>
    ensures { OnOk result (out.new ≡ out.old ++ written_byte byte) }
{
    match byte {
        b'\'' => out.bytes(b"''"),
        b'\\' => out.bytes(b"\\\\"),
        0 => out.bytes(b"\\0"),
        _ => out.byte(byte),
    }
}

/// A text in quotes.
#[tactic(auto, unfolding(stmt_tokens::specs::Quoting::quoted))]
fn put_quoted(text: &[u8], out: &mut Out) -> Result<(), Memory>
    ensures { OnOk result (out.new ≡ out.old ++ quoted text.now) }
{
    out.byte(b'\'')?;
    for byte in text {
        put_byte(*byte, out)?;
    }
    out.byte(b'\'')
}

/// A number in decimal digits.
fn put_number(number: u32, out: &mut Out) -> Result<(), Memory>
    ensures { OnOk result (out.new ≡ out.old ++ decimal number) }
{
    let digits = number.to_string(out.allocator())?;
    out.bytes(digits.as_bytes())
}

/// These words and a number.
fn put_count(words: &[u8], count: u32, out: &mut Out) -> Result<(), Memory>
    ensures { OnOk result (out.new ≡ out.old ++ (words.now ++ decimal count)) }
{
    out.bytes(words)?;
    put_number(count, out)
}

/// These words and a number of days.
fn put_days(words: &[u8], days: u32, out: &mut Out) -> Result<(), Memory>
    ensures { OnOk result (out.new ≡ out.old ++ (words.now ++ decimal days ++ codes " DAY")) }
{
    put_count(words, days, out)?;
    out.bytes(b" DAY")
}

/// A name, its host in quotes.
#[tactic(auto, unfolding(crate::specs::Printing::name_text))]
fn put_name(name: &Name, out: &mut Out) -> Result<(), Memory>
    ensures { OnOk result (out.new ≡ out.old ++ name_text name.now) }
{
    put_quoted(name.user.as_slice(), out)?;
    match name.host {
        Host::Localhost => out.bytes(b"@'localhost'"),
        Host::Any => out.bytes(b"@'%'"),
    }
}

/// ` WITH ..`, where a method stands.
fn put_method(method: &Option<Bytes>, out: &mut Out) -> Result<(), Memory>
    ensures { OnOk result (out.new ≡ out.old ++ method_text method.now) }
{
    let Some(method) = method else {
        return Ok(());
    };
    out.bytes(b" WITH ")?;
    put_quoted(method.as_slice(), out)
}

/// ` BY ..`, where a password stands.
fn put_password(password: &Option<Bytes>, out: &mut Out) -> Result<(), Memory>
    ensures { OnOk result (out.new ≡ out.old ++ password_text password.now) }
{
    let Some(password) = password else {
        return Ok(());
    };
    out.bytes(b" BY ")?;
    put_quoted(password.as_slice(), out)
}

/// ` RETAIN CURRENT PASSWORD`, where it stands.
fn put_retain(retain: bool, out: &mut Out) -> Result<(), Memory>
    ensures { OnOk result (out.new ≡ out.old ++ retain_text retain) }
{
    if retain {
        out.bytes(b" RETAIN CURRENT PASSWORD")
    } else {
        Ok(())
    }
}

/// ` IDENTIFIED ..` of an account's own way.
#[tactic(auto, unfolding(crate::specs::Printing::auth_text))]
fn put_auth(auth: &Auth, out: &mut Out) -> Result<(), Memory>
    ensures { OnOk result (out.new ≡ out.old ++ auth_text auth.now) }
{
    out.bytes(b" IDENTIFIED")?;
    put_method(&auth.method, out)?;
    put_password(&auth.password, out)?;
    put_retain(auth.retain, out)
}

/// The same, where it stands.
#[tactic(auto, unfolding(crate::specs::Printing::optional_auth_text))]
fn put_optional_auth(auth: &Option<Auth>, out: &mut Out) -> Result<(), Memory>
    ensures { OnOk result (out.new ≡ out.old ++ optional_auth_text auth.now) }
{
    match auth {
        None => Ok(()),
        Some(auth) => put_auth(auth, out),
    }
}

/// ` IDENTIFIED WITH .. AS ..` of a further factor.
#[tactic(auto, unfolding(crate::specs::Printing::factor_text))]
fn put_factor(factor: &FactorAuth, out: &mut Out) -> Result<(), Memory>
    ensures { OnOk result (out.new ≡ out.old ++ factor_text factor.now) }
{
    out.bytes(b" IDENTIFIED WITH ")?;
    put_quoted(factor.method.as_slice(), out)?;
    out.bytes(b" AS ")?;
    put_quoted(factor.label.as_slice(), out)
}

/// ` AND IDENTIFIED ..` for each of these.
fn put_factors(factors: &[FactorAuth], out: &mut Out) -> Result<(), Memory>
    ensures { OnOk result (out.new ≡ out.old ++ flat_map and_factor_text factors.now) }
{
    for factor in factors {
        out.bytes(b" AND")?;
        put_factor(factor, out)?;
    }
    Ok(())
}

/// ` PASSWORD EXPIRE ..`.
#[tactic(auto, unfolding(crate::specs::Printing::expire_text))]
fn put_expire(expire: Option<Expire>, out: &mut Out) -> Result<(), Memory>
    ensures { OnOk result (out.new ≡ out.old ++ expire_text expire) }
{
    match expire {
        None => Ok(()),
        Some(Expire::Now) => out.bytes(b" PASSWORD EXPIRE"),
        Some(Expire::Default) => out.bytes(b" PASSWORD EXPIRE DEFAULT"),
        Some(Expire::Never) => out.bytes(b" PASSWORD EXPIRE NEVER"),
        Some(Expire::Days(days)) => put_days(b" PASSWORD EXPIRE INTERVAL ", days, out),
    }
}

/// ` PASSWORD HISTORY ..`.
#[tactic(auto, unfolding(crate::specs::Printing::history_text))]
fn put_history(history: Option<Bound>, out: &mut Out) -> Result<(), Memory>
    ensures { OnOk result (out.new ≡ out.old ++ history_text history) }
{
    match history {
        None => Ok(()),
        Some(Bound::Default) => out.bytes(b" PASSWORD HISTORY DEFAULT"),
        Some(Bound::Count(count)) => put_count(b" PASSWORD HISTORY ", count, out),
    }
}

/// ` PASSWORD REUSE INTERVAL ..`.
#[tactic(auto, unfolding(crate::specs::Printing::reuse_text))]
fn put_reuse(reuse: Option<Bound>, out: &mut Out) -> Result<(), Memory>
    ensures { OnOk result (out.new ≡ out.old ++ reuse_text reuse) }
{
    match reuse {
        None => Ok(()),
        Some(Bound::Default) => out.bytes(b" PASSWORD REUSE INTERVAL DEFAULT"),
        Some(Bound::Count(days)) => put_days(b" PASSWORD REUSE INTERVAL ", days, out),
    }
}

/// ` FAILED_LOGIN_ATTEMPTS ..`.
#[tactic(auto, unfolding(crate::specs::Printing::attempts_text))]
fn put_attempts(attempts: Option<u32>, out: &mut Out) -> Result<(), Memory>
    ensures { OnOk result (out.new ≡ out.old ++ attempts_text attempts) }
{
    match attempts {
        None => Ok(()),
        Some(count) => put_count(b" FAILED_LOGIN_ATTEMPTS ", count, out),
    }
}

/// ` PASSWORD_LOCK_TIME ..`.
#[tactic(auto, unfolding(crate::specs::Printing::lock_time_text))]
fn put_lock_time(lock_time: Option<Time>, out: &mut Out) -> Result<(), Memory>
    ensures { OnOk result (out.new ≡ out.old ++ lock_time_text lock_time) }
{
    match lock_time {
        None => Ok(()),
        Some(Time::Unbounded) => out.bytes(b" PASSWORD_LOCK_TIME UNBOUNDED"),
        Some(Time::Days(days)) => put_count(b" PASSWORD_LOCK_TIME ", days, out),
    }
}

/// ` ACCOUNT ..`.
#[tactic(auto, unfolding(crate::specs::Printing::lock_text))]
fn put_lock(lock: Option<bool>, out: &mut Out) -> Result<(), Memory>
    ensures { OnOk result (out.new ≡ out.old ++ lock_text lock) }
{
    match lock {
        None => Ok(()),
        Some(true) => out.bytes(b" ACCOUNT LOCK"),
        Some(false) => out.bytes(b" ACCOUNT UNLOCK"),
    }
}

/// The options that stand.
#[tactic(auto, unfolding(crate::specs::Printing::options_text))]
fn put_options(options: &Options, out: &mut Out) -> Result<(), Memory>
    ensures { OnOk result (out.new ≡ out.old ++ options_text options.now) }
{
    put_expire(options.expire, out)?;
    put_history(options.history, out)?;
    put_reuse(options.reuse, out)?;
    put_attempts(options.attempts, out)?;
    put_lock_time(options.lock_time, out)?;
    put_lock(options.lock, out)
}

/// The target of an `ALTER USER`.
#[tactic(auto, unfolding(crate::specs::Printing::target_text))]
fn put_target(target: &Target, out: &mut Out) -> Result<(), Memory>
    ensures { OnOk result (out.new ≡ out.old ++ target_text target.now) }
{
    match target {
        Target::Own => out.bytes(b"USER()"),
        Target::Named(name) => put_name(name, out),
    }
}

/// What an `ALTER USER` does to the ways of authentication.
#[tactic(auto, unfolding(crate::specs::Printing::change_text))]
fn put_change(change: &Change, out: &mut Out) -> Result<(), Memory>
    ensures { OnOk result (out.new ≡ out.old ++ change_text change.now) }
{
    match change {
        Change::Nothing => Ok(()),
        Change::Password(auth) => put_auth(auth, out),
        Change::Discard => out.bytes(b" DISCARD OLD PASSWORD"),
        Change::Add(number, factor) => {
            out.bytes(b" ADD ")?;
            put_number(u32::from(*number), out)?;
            out.bytes(b" FACTOR")?;
            put_factor(factor, out)
        }
        Change::Modify(number, factor) => {
            out.bytes(b" MODIFY ")?;
            put_number(u32::from(*number), out)?;
            out.bytes(b" FACTOR")?;
            put_factor(factor, out)
        }
        Change::DropFactor(number) => {
            out.bytes(b" DROP ")?;
            put_number(u32::from(*number), out)?;
            out.bytes(b" FACTOR")
        }
    }
}

/// The privileges.
#[tactic(auto, unfolding(crate::specs::Printing::privileges_text))]
fn put_privileges(privileges: Privileges, out: &mut Out) -> Result<(), Memory>
    ensures { OnOk result (out.new ≡ out.old ++ privileges_text privileges) }
{
    match (privileges.create_user, privileges.password_admin) {
        (true, true) => out.bytes(b"CREATE USER, APPLICATION_PASSWORD_ADMIN"),
        (true, false) => out.bytes(b"CREATE USER"),
        (false, _) => out.bytes(b"APPLICATION_PASSWORD_ADMIN"),
    }
}

/// The statement.
#[tactic(auto, unfolding(crate::specs::Printing::printed))]
pub fn put_statement(statement: &Statement, out: &mut Out) -> Result<(), Memory>
    ensures { OnOk result (out.new ≡ out.old ++ printed statement.now) }
{
    match statement {
        Statement::Create {
            name,
            auth,
            factors,
            options,
        } => {
            out.bytes(b"CREATE USER ")?;
            put_name(name, out)?;
            put_optional_auth(auth, out)?;
            put_factors(factors.as_slice(), out)?;
            put_options(options, out)
        }
        Statement::Alter {
            target,
            change,
            options,
        } => {
            out.bytes(b"ALTER USER ")?;
            put_target(target, out)?;
            put_change(change, out)?;
            put_options(options, out)
        }
        Statement::Drop { name } => {
            out.bytes(b"DROP USER ")?;
            put_name(name, out)
        }
        Statement::Flush => out.bytes(b"FLUSH PRIVILEGES"),
        Statement::Grant { privileges, name } => {
            out.bytes(b"GRANT ")?;
            put_privileges(*privileges, out)?;
            out.bytes(b" ON *.* TO ")?;
            put_name(name, out)
        }
        Statement::Revoke { privileges, name } => {
            out.bytes(b"REVOKE ")?;
            put_privileges(*privileges, out)?;
            out.bytes(b" ON *.* FROM ")?;
            put_name(name, out)
        }
    }
}
