//! How the record of an account is written.

ghost use Rattle.account_keeper.specs.Record.{FitsRecord, LabelsFit, LabelFits, LifetimeFits, LockTimeFits, PastFits, PastsFit, PasswordFits, SecondaryFits, StoredFits, UserFits, counted_text, flag_byte, guard_text, head_text, host_byte, labels_text, lifetime_text, limit_text, lock_time_text, method_byte, passwords_text, past_text, pasts_text, privileges_byte, record_text, secondary_text, stored_text, terms_text};
ghost use Rattle.lg_base.specs.Fields.{little_text};
ghost use Rattle.std.specs.List.{All, flat_map};
ghost use Rattle.std.specs.Prelude.{◌≡◌, ◌++◌, IfSome, OnOk, OnErr};

use account_rules::{Account, Lifetime, Limit};
use factor_chain::{Method, PastRecord, Stored};
use lg_base::{Bytes, Host, Memory, Out};
use login_lock::LockTime;

fn host_byte(host: Host) -> u8
    ensures { result ≡ host_byte host }
{
    match host {
        Host::Localhost => 0,
        Host::Any => 1,
    }
}

fn method_byte(method: Method) -> u8
    ensures { result ≡ method_byte method }
{
    match method {
        Method::Native => 0,
        Method::CachingSha2 => 1,
    }
}

fn flag_byte(flag: bool) -> u8
    ensures { result ≡ flag_byte flag }
{
    if flag { 1 } else { 0 }
}

fn privileges_byte(create_user: bool, password_admin: bool) -> u8
    ensures { result ≡ privileges_byte create_user password_admin }
{
    match (create_user, password_admin) {
        (false, false) => 0,
        (true, false) => 1,
        (false, true) => 2,
        (true, true) => 3,
    }
}

fn write_stored(stored: &Stored, out: &mut Out) -> Result<(), Memory>
    requires { StoredFits stored.now }
    ensures { OnOk result (out.new ≡ out.old ++ stored_text stored.now) }
{
    match stored {
        Stored::Empty => out.byte(0),
        Stored::Native(digest) => {
            out.byte(1)?;
            out.bytes(&native_scramble::write_stored(digest))
        }
        Stored::Sha2(value) => {
            out.byte(2)?;
            out.bytes(&caching_sha2::write_stored(value))
        }
    }
}

#[tactic(auto, unfolding(crate::specs::Record::head_text))]
fn write_head(account: &Account, out: &mut Out) -> Result<(), Memory>
    requires { UserFits account.now.name.user }
    ensures { OnOk result (out.new ≡ out.old ++ head_text account.now) }
{
    let user = account.name.user.as_slice();
    out.byte(1)?;
    out.byte(user.len() as u8)?;
    out.bytes(user)?;
    out.byte(host_byte(account.name.host))?;
    out.byte(method_byte(account.method))
}

fn write_secondary(secondary: &Option<(Stored, u64)>, out: &mut Out) -> Result<(), Memory>
    requires { IfSome secondary.now (λ second. StoredFits second.0) }
    ensures { OnOk result (out.new ≡ out.old ++ secondary_text secondary.now) }
{
    match secondary {
        None => out.byte(0),
        Some((stored, _)) => {
            out.byte(1)?;
            write_stored(stored, out)
        }
    }
}

#[tactic(auto, unfolding(crate::specs::Record::passwords_text))]
fn write_passwords(account: &Account, out: &mut Out) -> Result<(), Memory>
    requires primary { StoredFits account.now.primary }
    requires secondary { IfSome account.now.secondary (λ second. StoredFits second.0) }
    ensures { OnOk result (out.new ≡ out.old ++ passwords_text account.now) }
{
    write_stored(&account.primary, out)?;
    write_secondary(&account.secondary, out)
}

/// Each label behind its length.
fn write_each_label(labels: &[Bytes], out: &mut Out) -> Result<(), Memory>
    requires { All LabelFits labels.now }
    ensures { OnOk result (out.new ≡ out.old ++ flat_map counted_text labels.now) }
{
    for label in labels {
        let text = label.as_slice();
        out.byte(text.len() as u8)?;
        out.bytes(text)?;
    }
    Ok(())
}

#[tactic(auto, unfolding(crate::specs::Record::labels_text))]
fn write_labels(labels: &[Bytes], out: &mut Out) -> Result<(), Memory>
    requires { LabelsFit labels.now }
    ensures { OnOk result (out.new ≡ out.old ++ labels_text labels.now) }
{
    out.byte(labels.len() as u8)?;
    write_each_label(labels, out)
}

fn write_lifetime(lifetime: Lifetime, out: &mut Out) -> Result<(), Memory>
    ensures { OnOk result (out.new ≡ out.old ++ lifetime_text lifetime) }
{
    match lifetime {
        Lifetime::Default => out.byte(0),
        Lifetime::Never => out.byte(1),
        Lifetime::Days(days) => {
            out.byte(2)?;
            out.write_u16(days)
        }
    }
}

fn write_limit(limit: Limit, out: &mut Out) -> Result<(), Memory>
    ensures { OnOk result (out.new ≡ out.old ++ limit_text limit) }
{
    match limit {
        Limit::Default => out.byte(0),
        Limit::Count(count) => {
            out.byte(1)?;
            out.write_u16(count)
        }
    }
}

fn write_lock_time(time: LockTime, out: &mut Out) -> Result<(), Memory>
    ensures { OnOk result (out.new ≡ out.old ++ lock_time_text time) }
{
    match time {
        LockTime::Days(days) => {
            out.byte(0)?;
            out.write_u16(days)
        }
        LockTime::Unbounded => out.byte(1),
    }
}

/// A moment in eight bytes.
fn write_moment(moment: u64, out: &mut Out) -> Result<(), Memory>
    ensures { OnOk result (out.new ≡ out.old ++ little_text 8 moment) }
{
    out.bytes(&moment.to_le_bytes())
}

#[tactic(auto, unfolding(crate::specs::Record::terms_text))]
fn write_terms(account: &Account, out: &mut Out) -> Result<(), Memory>
    ensures { OnOk result (out.new ≡ out.old ++ terms_text account.now) }
{
    write_moment(account.changed, out)?;
    out.byte(flag_byte(account.expired))?;
    write_lifetime(account.lifetime, out)?;
    write_limit(account.history, out)?;
    write_limit(account.reuse, out)
}

#[tactic(auto, unfolding(crate::specs::Record::guard_text))]
fn write_guard(account: &Account, out: &mut Out) -> Result<(), Memory>
    ensures { OnOk result (out.new ≡ out.old ++ guard_text account.now) }
{
    out.write_u16(account.lock.attempts)?;
    write_lock_time(account.lock.time, out)?;
    out.byte(flag_byte(account.locked))?;
    out.byte(privileges_byte(account.create_user, account.password_admin))
}

fn write_each_past(past: &[PastRecord], out: &mut Out) -> Result<(), Memory>
    requires { All PastFits past.now }
    ensures { OnOk result (out.new ≡ out.old ++ flat_map past_text past.now) }
{
    for record in past {
        write_moment(record.moment, out)?;
        write_stored(&record.stored, out)?;
    }
    Ok(())
}

#[tactic(auto, unfolding(crate::specs::Record::pasts_text))]
fn write_pasts(past: &[PastRecord], out: &mut Out) -> Result<(), Memory>
    requires { PastsFit past.now }
    ensures { OnOk result (out.new ≡ out.old ++ pasts_text past.now) }
{
    out.write_u16(past.len() as u16)?;
    write_each_past(past, out)
}

#[tactic(auto, unfolding(crate::specs::Record::record_text))]
fn write_parts(account: &Account, out: &mut Out) -> Result<(), Memory>
    requires { FitsRecord account.now }
    ensures { OnOk result (out.new ≡ out.old ++ record_text account.now) }
{
    write_head(account, out)?;
    write_passwords(account, out)?;
    write_labels(account.labels.as_slice(), out)?;
    write_terms(account, out)?;
    write_guard(account, out)?;
    write_pasts(account.past.as_slice(), out)
}

/// Adds the record of an account, for which [`fits_record`](crate::fits_record) is true. After `Memory`
/// nothing was added.
pub fn write_record(account: &Account, out: &mut Out) -> Result<(), Memory>
    requires { FitsRecord account.now }
    ensures ok { OnOk result (out.new ≡ out.old ++ record_text account.now) }
    ensures err { OnErr result (out.new ≡ out.old) }
{
    let mut text = out.beside();
    write_parts(account, &mut text)?;
    out.bytes(text.as_slice())
}
