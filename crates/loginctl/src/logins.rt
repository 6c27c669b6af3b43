//! `login`: the client logs in to the server at a socket, and its result is printed.

ghost use Rattle.lg_outside.specs.Faults.{Rose};
ghost use Rattle.login_client.specs.Claims.{AreFit, AreUsable};
ghost use Rattle.login_client.specs.Exchange.{EndsAs};
ghost use Rattle.loginctl.specs.LoginWords.{IsFit, choice_of, text_of};
ghost use Rattle.loginctl.specs.Logins.{AnswersLogin, LogsIn, login_line, login_status, options_of, path_of, secrets_of, IsTold};
ghost use Rattle.std.specs.Prelude.{◌≡◌, ◌≤◌, ◌++◌, [], ◌↔◌, IsTrue, IfOk, false, unwrap_or};

use crate::login_words::Chosen;
use crate::printing::print;
use crate::status::Status;
use client_wire::add_words;
use lg_base::{Bytes, Memory, Out};
use lg_outside::{Dial, Sink};
use login_client::{ClientOptions, LoginEnd, Secrets, login};
use std::alloc::Global;

/// PROTOCOL_41, TRANSACTIONS, SECURE_CONNECTION, PLUGIN_AUTH, PLUGIN_AUTH_LENENC_CLIENT_DATA and
/// MULTI_FACTOR_AUTHENTICATION.
const FLAGS: u32 = 0x1028_A200;

/// The same and CAN_HANDLE_EXPIRED_PASSWORDS.
const FLAGS_IF_EXPIRED: u32 = 0x1068_A200;

/// A text's bytes, or none where there is no text.
fn bytes_or_none(text: &Option<String>) -> &[u8]
    ensures { result.now ≡ unwrap_or (text_of text.now) [] }
{
    match text {
        Some(text) => text.as_bytes(),
        None => &[],
    }
}

/// A copy of a text's bytes, if there is a text.
fn copy_if_some(alloc: Global, text: &Option<String>) -> Result<Option<Bytes>, Memory>
    ensures { IfOk result (λ copied. copied ≡ text_of text.now) }
{
    match text {
        Some(text) => Ok(Some(Bytes::copy(alloc, text.as_bytes())?)),
        None => Ok(None),
    }
}

/// The secrets that the options give.
#[tactic(auto, unfolding(crate::specs::LoginWords::choice_of))]
fn secrets_of(alloc: Global, chosen: &Chosen) -> Result<Secrets, Memory>
    ensures { IfOk result (λ secrets. secrets ≡ secrets_of (choice_of chosen.now)) }
{
    Ok(Secrets {
        first: Bytes::copy(alloc, bytes_or_none(&chosen.password))?,
        second: copy_if_some(alloc, &chosen.factor2)?,
        third: copy_if_some(alloc, &chosen.factor3)?,
    })
}

/// What the client may do by the options.
#[tactic(auto, unfolding(crate::specs::LoginWords::choice_of))]
fn options_of(chosen: &Chosen) -> ClientOptions
    ensures { result ≡ options_of (choice_of chosen.now) }
{
    let flags = if chosen.expired {
        FLAGS_IF_EXPIRED
    } else {
        FLAGS
    };
    ClientOptions {
        flags,
        clear: chosen.clear,
    }
}

/// Connects the link, and logs in over it.
fn log_in<L: Dial>(alloc: Global, chosen: &Chosen, link: &mut L) -> LoginEnd
    requires open { L.finished link.old ≡ false }
    requires fit { IsFit (choice_of chosen.now) }
    ensures ends { LogsIn (choice_of chosen.now) (L.local link.old) (record {
      told = L.told link.old;
      dialled = L.dialled link.old;
      faults = L.fault_count link.old;
    }) (record {
      told = L.told link.new;
      dialled = L.dialled link.new;
      faults = L.fault_count link.new;
    }) result }
    ensures stays { L.finished link.new ≡ false }
    ensures place { L.local link.new ≡ L.local link.old }
    ensures rising { L.fault_count link.old ≤ L.fault_count link.new }
{
    let secrets = match secrets_of(alloc, chosen) {
        Ok(secrets) => secrets,
        Err(Memory) => return LoginEnd::Memory,
    };
    let options = options_of(chosen);
    match link.dial(path_of(chosen)) {
        Ok(()) => {}
        Err(_) => return LoginEnd::LinkFault,
    }
    login(alloc, link, bytes_or_none(&chosen.user), &secrets, &options)
}

/// The path of the socket.
#[tactic(auto, unfolding(crate::specs::LoginWords::choice_of))]
fn path_of(chosen: &Chosen) -> &str
    ensures { result.now ≡ path_of (choice_of chosen.now) }
{
    match &chosen.socket {
        Some(path) => path.as_str(),
        None => "",
    }
}

/// The line of a result.
fn line_of(alloc: Global, end: LoginEnd) -> Result<Out, Memory>
    ensures { IfOk result (λ text. text ≡ login_line end) }
{
    let mut text = Out::new(alloc);
    add_words(&mut text, end)?;
    text.byte(b'\n')?;
    Ok(text)
}

/// The status that goes with a result.
fn status_of(end: LoginEnd) -> Status
    ensures { result ≡ login_status end }
{
    match end {
        LoginEnd::Opened => Status::Done,
        LoginEnd::Refused { number: _ } => Status::LoginRefused,
        LoginEnd::LinkFault => Status::InputFault,
        LoginEnd::Memory => Status::NoMemory,
        LoginEnd::Malformed { at: _ } => Status::BadAnswer,
        LoginEnd::Framing(_) => Status::BadAnswer,
        LoginEnd::PeerClosed => Status::BadAnswer,
        LoginEnd::WontSend(_) => Status::NotSent,
    }
}

/// Whether a result is printed: all are but want of memory.
fn is_told(end: LoginEnd) -> bool
    ensures { IsTrue result ↔ IsTold end }
{
    !matches!(end, LoginEnd::Memory)
}

/// Logs in, prints the result's words, and answers its status.
pub fn print_login<W: Sink, L: Dial>(
    alloc: Global,
    chosen: &Chosen,
    out: &mut W,
    link: &mut L,
) -> Status
    requires open { L.finished link.old ≡ false }
    requires fit { IsFit (choice_of chosen.now) }
    ensures answer { AnswersLogin (choice_of chosen.now) (L.local link.old) (record {
      told = L.told link.old;
      dialled = L.dialled link.old;
      faults = L.fault_count link.old;
    }) (record {
      told = L.told link.new;
      dialled = L.dialled link.new;
      faults = L.fault_count link.new;
    }) (W.written out.old) (W.written out.new) (Rose (W.fault_count out.old) (W.fault_count out.new)) result }
    ensures stays { L.finished link.new ≡ false }
    ensures place { L.local link.new ≡ L.local link.old }
    ensures link { L.fault_count link.old ≤ L.fault_count link.new }
    ensures out { W.fault_count out.old ≤ W.fault_count out.new }
{
    let end = log_in(alloc, chosen, link);
    if !is_told(end) {
        return Status::NoMemory;
    }
    match line_of(alloc, end) {
        Ok(text) => print(out, text.as_slice(), status_of(end)),
        Err(Memory) => Status::NoMemory,
    }
}
