//! How the record of an account is read.
//!
//! A record has one layout alone. So the fields are read first, leaving open what is out of range; then the
//! account must fit the layout, and what is written of it must be the very bytes that were read. That no
//! record is refused stands with each reader of fields: where the bytes go on with the text of a value, it finds
//! that value and stands behind its text.

ghost use Rattle.account_keeper.specs.Finding.{ArePasswords, AreTerms, Finds, FitsUnnumbered, IsGuard, IsHead, SecondFits, privileges_text};
ghost use Rattle.account_keeper.specs.Record.{FitsRecord, IsDigest, IsSaltedSum, LabelFits, LabelsFit, LifetimeFits, LimitFits, LockTimeFits, PastFits, PastsFit, StoredFits, counted_text, flag_byte, guard_text, head_text, host_byte, labels_text, lifetime_text, limit_text, lock_time_text, method_byte, passwords_text, past_text, pasts_text, record_text, secondary_text, stored_text, terms_text};
ghost use Rattle.account_keeper.specs.Records.{Gives, HasNoId, HasNoIds, IsKey, IsRecord, as_kept};
ghost use Rattle.account_keeper.specs.declared.reading.RecordFault.TheVariants as fault;
ghost use Rattle.account_rules.specs.declared.accounts.Account.{Account};
ghost use Rattle.caching_sha2.specs.Stored.{text_of};
ghost use Rattle.lg_base.specs.Fields.{little, little_text};
ghost use Rattle.native_scramble.specs.Native.{native_text};
ghost use Rattle.std.specs.List.{All, flat_map};
ghost use Rattle.std.specs.Prelude.{◌≡◌, ◌≢◌, ◌<◌, ◌^◌, ◌↔◌, [], ◌∷◌, IfErr, IfOk, IsTrue, OnErr, length};

use crate::fitting::fits_record;
use crate::writing::write_record;
use account_rules::{Account, Lifetime, Limit};
use caching_sha2::Sha2Stored;
use factor_chain::{Method, PastRecord, Stored};
use lg_base::{Bytes, Host, Items, Name, Out, ReadFault, Reader};
use login_lock::{LockRule, LockTime};
use std::alloc::Global;

/// The greatest key of a record, and the greatest id of an account: 2 to the power of 62.
const MOST_KEY: u64 = 4_611_686_018_427_387_904;

/// Why a record isn't read.
#[derive(Clone, Copy, Debug, PartialEq, Eq)]
pub enum RecordFault {
    /// The bytes are no account's record, or the key is no account's id.
    Bad,
    /// No memory was to be had.
    Memory,
}

impl From<ReadFault> for RecordFault {
    ghost from_gives = { λ _ e. e ≡ fault.Bad };

    fn from(_fault: ReadFault) -> RecordFault {
        RecordFault::Bad
    }
}

impl From<lg_base::Memory> for RecordFault {
    ghost from_gives = { λ _ e. e ≡ fault.Memory };

    fn from(_refused: lg_base::Memory) -> RecordFault {
        RecordFault::Memory
    }
}

/// One byte.
#[tactic(auto, using(crate::proofs::Found::byte_found, crate::proofs::Found::byte_refused))]
fn read_byte(reader: &mut Reader) -> Result<u8, RecordFault>
    ensures { Finds (λ x v. x ≡ v) (λ b. b ∷ []) (λ _. Unit {0}) reader.old.rest reader.new.rest result }
{
    Ok(reader.read_u8()?)
}

/// A number in two bytes.
#[tactic(auto, using(crate::proofs::Found::two_found, crate::proofs::Found::two_refused))]
fn read_number(reader: &mut Reader) -> Result<u16, RecordFault>
    ensures { Finds (λ x v. x ≡ v) (λ n. little_text 2 n) (λ n. n < 256 ^ 2) reader.old.rest reader.new.rest result }
{
    Ok(reader.read_u16()?)
}

#[tactic(auto, using(crate::proofs::Found::host_found))]
fn read_host(reader: &mut Reader) -> Result<Host, RecordFault>
    ensures { Finds (λ x v. x ≡ v) (λ host. host_byte host ∷ []) (λ _. Unit {0}) reader.old.rest reader.new.rest result }
{
    match read_byte(reader)? {
        0 => Ok(Host::Localhost),
        1 => Ok(Host::Any),
        _ => Err(RecordFault::Bad),
    }
}

#[tactic(auto, using(crate::proofs::Found::method_found))]
fn read_method(reader: &mut Reader) -> Result<Method, RecordFault>
    ensures { Finds (λ x v. x ≡ v) (λ method. method_byte method ∷ []) (λ _. Unit {0}) reader.old.rest reader.new.rest result }
{
    match read_byte(reader)? {
        0 => Ok(Method::Native),
        1 => Ok(Method::CachingSha2),
        _ => Err(RecordFault::Bad),
    }
}

#[tactic(auto, using(crate::proofs::Found::flag_found))]
fn read_flag(reader: &mut Reader) -> Result<bool, RecordFault>
    ensures { Finds (λ x v. x ≡ v) (λ flag. flag_byte flag ∷ []) (λ _. Unit {0}) reader.old.rest reader.new.rest result }
{
    match read_byte(reader)? {
        0 => Ok(false),
        1 => Ok(true),
        _ => Err(RecordFault::Bad),
    }
}

/// The two privileges.
#[tactic(auto, using(crate::proofs::Found::privileges_found))]
fn read_privileges(reader: &mut Reader) -> Result<(bool, bool), RecordFault>
    ensures { Finds (λ x v. (x.0, x.1) ≡ v) privileges_text (λ _. Unit {0}) reader.old.rest reader.new.rest result }
{
    match read_byte(reader)? {
        0 => Ok((false, false)),
        1 => Ok((true, false)),
        2 => Ok((false, true)),
        3 => Ok((true, true)),
        _ => Err(RecordFault::Bad),
    }
}

/// So many bytes.
#[tactic(auto, using(crate::proofs::Found::bytes_found, crate::proofs::Found::bytes_refused))]
fn read_bytes<'a>(size: u8, reader: &mut Reader<'a>) -> Result<&'a [u8], RecordFault>
    ensures { Finds (λ x v. x.now ≡ v) (λ text. text) (λ text. length text ≡ size) reader.old.rest reader.new.rest result }
{
    Ok(reader.take(u64::from(size))?)
}

/// The number in eight bytes.
fn number_of(text: &[u8]) -> Result<u64, RecordFault>
    ensures ok { IfOk result (λ n. n ≡ little text.now) }
    ensures err { OnErr result (length text.now ≢ 8) }
{
    match text {
        [a, b, c, d, e, f, g, h] => Ok(u64::from_le_bytes([*a, *b, *c, *d, *e, *f, *g, *h])),
        _ => Err(RecordFault::Bad),
    }
}

/// A number in eight bytes.
fn read_moment(reader: &mut Reader) -> Result<u64, RecordFault>
    ensures { Finds (λ x v. x ≡ v) (λ n. little_text 8 n) (λ n. n < 256 ^ 8) reader.old.rest reader.new.rest result }
{
    number_of(read_bytes(8, reader)?)
}

/// Bytes behind their length in one byte.
fn read_counted(alloc: Global, reader: &mut Reader) -> Result<Bytes, RecordFault>
    ensures { Finds (λ x v. x ≡ v) counted_text (λ _. Unit {0}) reader.old.rest reader.new.rest result }
{
    let length = read_byte(reader)?;
    let text = read_bytes(length, reader)?;
    Ok(Bytes::copy(alloc, text)?)
}

/// The text of the native method's digest.
fn read_native(reader: &mut Reader) -> Result<[u8; 20], RecordFault>
    ensures { Finds (λ x v. x ≡ v) native_text IsDigest reader.old.rest reader.new.rest result }
{
    match native_scramble::read_stored(read_bytes(41, reader)?) {
        Some(digest) => Ok(digest),
        None => Err(RecordFault::Bad),
    }
}

/// The text of the caching method's salted sum.
fn read_sha2(reader: &mut Reader) -> Result<Sha2Stored, RecordFault>
    ensures { Finds (λ x v. x ≡ v) text_of IsSaltedSum reader.old.rest reader.new.rest result }
{
    match caching_sha2::read_stored(read_bytes(70, reader)?) {
        Some(value) => Ok(value),
        None => Err(RecordFault::Bad),
    }
}

#[tactic(auto, using(crate::proofs::Found::stored_parts, crate::proofs::Found::stored_found))]
fn read_stored(reader: &mut Reader) -> Result<Stored, RecordFault>
    ensures { Finds (λ x v. x ≡ v) stored_text StoredFits reader.old.rest reader.new.rest result }
{
    match read_byte(reader)? {
        0 => Ok(Stored::Empty),
        1 => match read_native(reader) {
            Ok(digest) => Ok(Stored::Native(digest)),
            Err(fault) => Err(fault),
        },
        2 => match read_sha2(reader) {
            Ok(value) => Ok(Stored::Sha2(value)),
            Err(fault) => Err(fault),
        },
        _ => Err(RecordFault::Bad),
    }
}

#[tactic(auto, using(crate::proofs::Found::secondary_parts, crate::proofs::Found::secondary_found))]
fn read_secondary(reader: &mut Reader) -> Result<Option<(Stored, u64)>, RecordFault>
    ensures unnumbered { IfOk result HasNoId }
    ensures finds { Finds (λ x v. x ≡ v) secondary_text SecondFits reader.old.rest reader.new.rest result }
{
    match read_byte(reader)? {
        0 => Ok(None),
        1 => match read_stored(reader) {
            Ok(stored) => Ok(Some((stored, 0))),
            Err(fault) => Err(fault),
        },
        _ => Err(RecordFault::Bad),
    }
}

/// So many labels, each behind its length.
fn read_each_label(
    alloc: Global,
    count: u8,
    reader: &mut Reader,
) -> Result<Items<Bytes>, RecordFault>
    ensures { Finds (λ x v. x ≡ v) (flat_map counted_text) (λ v. (length v ≡ count) × All LabelFits v) reader.old.rest reader.new.rest result }
{
    let mut labels = Items::new(alloc);
    for _ in 0..count {
        let label = read_counted(alloc, reader)?;
        labels.push(label)?;
    }
    Ok(labels)
}

fn read_labels(alloc: Global, reader: &mut Reader) -> Result<Items<Bytes>, RecordFault>
    ensures { Finds (λ x v. x ≡ v) labels_text LabelsFit reader.old.rest reader.new.rest result }
{
    let count = read_byte(reader)?;
    read_each_label(alloc, count, reader)
}

#[tactic(auto, using(crate::proofs::Found::lifetime_parts, crate::proofs::Found::lifetime_found))]
fn read_lifetime(reader: &mut Reader) -> Result<Lifetime, RecordFault>
    ensures { Finds (λ x v. x ≡ v) lifetime_text LifetimeFits reader.old.rest reader.new.rest result }
{
    match read_byte(reader)? {
        0 => Ok(Lifetime::Default),
        1 => Ok(Lifetime::Never),
        2 => match read_number(reader) {
            Ok(days) => Ok(Lifetime::Days(days)),
            Err(fault) => Err(fault),
        },
        _ => Err(RecordFault::Bad),
    }
}

#[tactic(auto, using(crate::proofs::Found::limit_parts, crate::proofs::Found::limit_found))]
fn read_limit(reader: &mut Reader) -> Result<Limit, RecordFault>
    ensures { Finds (λ x v. x ≡ v) limit_text (λ v. LimitFits 65535 v) reader.old.rest reader.new.rest result }
{
    match read_byte(reader)? {
        0 => Ok(Limit::Default),
        1 => match read_number(reader) {
            Ok(count) => Ok(Limit::Count(count)),
            Err(fault) => Err(fault),
        },
        _ => Err(RecordFault::Bad),
    }
}

#[tactic(auto, using(crate::proofs::Found::lock_time_parts, crate::proofs::Found::lock_time_found))]
fn read_lock_time(reader: &mut Reader) -> Result<LockTime, RecordFault>
    ensures { Finds (λ x v. x ≡ v) lock_time_text LockTimeFits reader.old.rest reader.new.rest result }
{
    match read_byte(reader)? {
        0 => match read_number(reader) {
            Ok(days) => Ok(LockTime::Days(days)),
            Err(fault) => Err(fault),
        },
        1 => Ok(LockTime::Unbounded),
        _ => Err(RecordFault::Bad),
    }
}

/// A past password behind its moment.
fn read_past(reader: &mut Reader) -> Result<PastRecord, RecordFault>
    ensures { Finds (λ x v. x ≡ v) past_text PastFits reader.old.rest reader.new.rest result }
{
    let moment = read_moment(reader)?;
    let stored = read_stored(reader)?;
    Ok(PastRecord { moment, stored })
}

/// So many past passwords.
fn read_each_past(
    alloc: Global,
    count: u16,
    reader: &mut Reader,
) -> Result<Items<PastRecord>, RecordFault>
    ensures { Finds (λ x v. x ≡ v) (flat_map past_text) (λ v. (length v ≡ count) × All PastFits v) reader.old.rest reader.new.rest result }
{
    let mut pasts = Items::new(alloc);
    for _ in 0..count {
        let past = read_past(reader)?;
        pasts.push(past)?;
    }
    Ok(pasts)
}

fn read_pasts(alloc: Global, reader: &mut Reader) -> Result<Items<PastRecord>, RecordFault>
    ensures { Finds (λ x v. x ≡ v) pasts_text PastsFit reader.old.rest reader.new.rest result }
{
    let count = read_number(reader)?;
    read_each_past(alloc, count, reader)
}

/// What a record begins with.
#[derive(Drop)]
struct Head {
    name: Name,
    method: Method,
}

fn read_head(alloc: Global, reader: &mut Reader) -> Result<Head, RecordFault>
    ensures { Finds IsHead head_text FitsRecord reader.old.rest reader.new.rest result }
{
    if read_byte(reader)? != 1 {
        return Err(RecordFault::Bad);
    }
    let user = read_counted(alloc, reader)?;
    let host = read_host(reader)?;
    let method = read_method(reader)?;
    Ok(Head {
        name: Name { user, host },
        method,
    })
}

/// The primary and the secondary password, which has no id.
fn read_passwords(reader: &mut Reader) -> Result<(Stored, Option<(Stored, u64)>), RecordFault>
    ensures unnumbered { IfOk result (λ two. HasNoId two.1) }
    ensures finds { Finds ArePasswords passwords_text FitsUnnumbered reader.old.rest reader.new.rest result }
{
    let primary = read_stored(reader)?;
    let secondary = read_secondary(reader)?;
    Ok((primary, secondary))
}

/// How long passwords last, and which may not be used again.
#[derive(Clone, Copy)]
struct Terms {
    changed: u64,
    expired: bool,
    lifetime: Lifetime,
    history: Limit,
    reuse: Limit,
}

fn read_terms(reader: &mut Reader) -> Result<Terms, RecordFault>
    ensures { Finds AreTerms terms_text FitsRecord reader.old.rest reader.new.rest result }
{
    let changed = read_moment(reader)?;
    let expired = read_flag(reader)?;
    let lifetime = read_lifetime(reader)?;
    let history = read_limit(reader)?;
    let reuse = read_limit(reader)?;
    Ok(Terms {
        changed,
        expired,
        lifetime,
        history,
        reuse,
    })
}

/// The locks and the privileges.
#[derive(Clone, Copy)]
struct Guard {
    lock: LockRule,
    locked: bool,
    privileges: (bool, bool),
}

fn read_guard(reader: &mut Reader) -> Result<Guard, RecordFault>
    ensures { Finds IsGuard guard_text FitsRecord reader.old.rest reader.new.rest result }
{
    let attempts = read_number(reader)?;
    let time = read_lock_time(reader)?;
    let locked = read_flag(reader)?;
    let privileges = read_privileges(reader)?;
    Ok(Guard {
        lock: LockRule { attempts, time },
        locked,
        privileges,
    })
}

/// The fields one behind the other.
fn read_fields(alloc: Global, key: u64, reader: &mut Reader) -> Result<Account, RecordFault>
    ensures ids { IfOk result (HasNoIds key) }
    ensures finds { Finds (λ x v. x ≡ v) record_text (λ a. FitsRecord a × HasNoIds key a) reader.old.rest reader.new.rest result }
{
    let head = read_head(alloc, reader)?;
    let passwords = read_passwords(reader)?;
    let labels = read_labels(alloc, reader)?;
    let terms = read_terms(reader)?;
    let guard = read_guard(reader)?;
    let past = read_pasts(alloc, reader)?;
    Ok(Account {
        id: key,
        name: head.name,
        method: head.method,
        primary: passwords.0,
        primary_id: 0,
        secondary: passwords.1,
        labels,
        changed: terms.changed,
        expired: terms.expired,
        lifetime: terms.lifetime,
        history: terms.history,
        reuse: terms.reuse,
        lock: guard.lock,
        locked: guard.locked,
        create_user: guard.privileges.0,
        password_admin: guard.privileges.1,
        past,
    })
}

/// Whether these bytes are the record of an account.
fn is_record_of(alloc: Global, bytes: &[u8], account: &Account) -> Result<bool, RecordFault>
    ensures ok { IfOk result (λ is. IsTrue is ↔ (FitsRecord account.now × (record_text account.now ≡ bytes.now))) }
    ensures err { IfErr result (λ e. e ≡ fault.Memory) }
{
    if !fits_record(account) {
        return Ok(false);
    }
    let mut text = Out::new(alloc);
    write_record(account, &mut text)?;
    Ok(text.as_slice() == bytes)
}

/// Reads the record under a key, which is the account's id, from 1 to 2 to the power of 62. A record holds
/// no ids of credentials: they are 0.
///
/// `Bad` comes exactly where the bytes are no account's record or the key is no account's id.
pub fn read_record(alloc: Global, key: u64, bytes: &[u8]) -> Result<Account, RecordFault>
    ensures found { IfOk result (λ account. IsRecord key account bytes.now) }

    // So Bad comes only where the bytes are no account's record.
    ensures only { (a : Account) → IsRecord key a bytes.now → Gives result a }

    // What was written of an account is read with the same fields, but for the ids.
    ensures again { (a : Account) → IsKey key → FitsRecord a → record_text a ≡ bytes.now → Gives result (as_kept key a) }
{
    if key < 1 || key > MOST_KEY {
        return Err(RecordFault::Bad);
    }
    let mut reader = Reader::new(bytes);
    let account = read_fields(alloc, key, &mut reader)?;
    if !is_record_of(alloc, bytes, &account)? {
        return Err(RecordFault::Bad);
    }
    Ok(account)
}
