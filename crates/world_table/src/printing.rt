//! The lines that a replay prints.

ghost use Rattle.packet_stream.specs.Sent.{sent_from};
ghost use Rattle.world_table.specs.Printing.{Ends, Idle, Sends, Stale};
ghost use Rattle.world_table.specs.Printing as text;
ghost use Rattle.world_table.specs.Printing.{line_text, lines_text, send_lines};
ghost use Rattle.std.specs.Prelude.{◌≡◌, [], ◌∷◌, ◌++◌, OnOk, decimal};

use account_history::{Reply, StmtReply};
use lg_base::{Bytes, Memory, Out};
use packet_stream::id_behind;
use session_talk::SessionEnd;

/// Bytes in hexadecimal, `-` for none.
#[tactic(auto, unfolding(crate::specs::Printing::hex_word))]
fn add_hex(out: &mut Out, bytes: &[u8]) -> Result<(), Memory>
    ensures { OnOk result (out.new ≡ out.old ++ text.hex_word bytes.now) }
{
    if bytes.is_empty() {
        return out.byte(b'-');
    }
    let word = hex::encode(out.allocator(), bytes)?;
    out.bytes(word.as_bytes())
}

/// A number in decimal digits.
fn add_number(out: &mut Out, number: u64) -> Result<(), Memory>
    ensures { OnOk result (out.new ≡ out.old ++ decimal number) }
{
    let digits = number.to_string(out.allocator())?;
    out.bytes(digits.as_bytes())
}

/// The word of a reply.
#[tactic(auto, unfolding(crate::specs::Printing::reply_word))]
fn reply_word(reply: Reply) -> &'static [u8]
    ensures { result.now ≡ text.reply_word reply }
{
    match reply {
        Reply::Opened { .. } => b"opened",
        Reply::Sandbox { .. } => b"sandbox",
        Reply::Blocked { .. } => b"blocked",
        Reply::Denied { .. } => b"denied",
        Reply::Locked => b"locked",
        Reply::MustChange => b"mustchange",
    }
}

/// The words of an end.
#[tactic(auto, unfolding(crate::specs::Printing::end_words))]
fn add_end(out: &mut Out, how: SessionEnd) -> Result<(), Memory>
    ensures { OnOk result (out.new ≡ out.old ++ text.end_words how) }
{
    match how {
        SessionEnd::Quit => out.bytes(b"quit"),
        SessionEnd::PeerClosed { cut: false } => out.bytes(b"closed"),
        SessionEnd::PeerClosed { cut: true } => out.bytes(b"closed cut"),
        SessionEnd::Refused { number } => {
            out.bytes(b"refused ")?;
            add_number(out, u64::from(number))
        }
        SessionEnd::Bad { number, at } => {
            out.bytes(b"bad ")?;
            add_number(out, u64::from(number))?;
            out.byte(b' ')?;
            add_number(out, at)
        }
        SessionEnd::LinkFault => out.bytes(b"linkfault"),
        SessionEnd::SessionLong => out.bytes(b"long"),
        SessionEnd::Memory => out.bytes(b"memory"),
    }
}

/// A word, a number and a blank or the end of a line.
pub fn add_numbered(out: &mut Out, word: &[u8], number: u64, last: u8) -> Result<(), Memory>
    ensures { OnOk result (out.new ≡ out.old ++ (word.now ++ decimal number ++ last ∷ [])) }
{
    out.bytes(word)?;
    add_number(out, number)?;
    out.byte(last)
}

/// The line of an account that was looked at.
#[tactic(auto, unfolding(crate::specs::Printing::look_line))]
pub fn print_look(out: &mut Out, number: u64, user: &[u8]) -> Result<(), Memory>
    ensures { OnOk result (out.new ≡ out.old ++ text.look_line number user.now) }
{
    add_numbered(out, b"entry ", number, b' ')?;
    out.bytes(b"observe ")?;
    add_hex(out, user)?;
    out.byte(b'\n')
}

/// The line of an attempt.
#[tactic(auto, unfolding(crate::specs::Printing::attempt_line))]
pub fn print_attempt(out: &mut Out, number: u64, user: &[u8], reply: Reply) -> Result<(), Memory>
    ensures { OnOk result (out.new ≡ out.old ++ text.attempt_line number user.now reply) }
{
    add_numbered(out, b"entry ", number, b' ')?;
    out.bytes(b"attempt ")?;
    add_hex(out, user)?;
    out.byte(b' ')?;
    out.bytes(reply_word(reply))?;
    out.byte(b'\n')
}

/// The number of a statement's error, or 0 where it was done.
fn statement_number(reply: &StmtReply) -> u16
    ensures { result ≡ text.stmt_number reply.now }
{
    match reply {
        StmtReply::Done => 0,
        StmtReply::Refused(code) => code.number(),
    }
}

/// The line of a statement.
#[tactic(auto, unfolding(crate::specs::Printing::statement_line))]
pub fn print_statement(out: &mut Out, number: u64, reply: &StmtReply) -> Result<(), Memory>
    ensures { OnOk result (out.new ≡ out.old ++ text.statement_line number reply.now) }
{
    add_numbered(out, b"entry ", number, b' ')?;
    add_numbered(
        out,
        b"statement ",
        u64::from(statement_number(reply)),
        b'\n',
    )
}

/// The line of a stale answer.
#[tactic(auto, unfolding(crate::specs::Printing::line_text))]
pub fn print_stale(out: &mut Out, session: u32) -> Result<(), Memory>
    ensures { OnOk result (out.new ≡ out.old ++ line_text session Stale) }
{
    add_numbered(out, b"stale ", u64::from(session), b'\n')
}

/// The line of an event that does nothing.
#[tactic(auto, unfolding(crate::specs::Printing::line_text))]
pub fn print_idle(out: &mut Out, session: u32) -> Result<(), Memory>
    ensures { OnOk result (out.new ≡ out.old ++ line_text session Idle) }
{
    add_numbered(out, b"idle ", u64::from(session), b'\n')
}

/// The line of a session's end.
#[tactic(auto, unfolding(crate::specs::Printing::line_text))]
pub fn print_end(out: &mut Out, session: u32, how: SessionEnd) -> Result<(), Memory>
    ensures { OnOk result (out.new ≡ out.old ++ line_text session (Ends how)) }
{
    add_numbered(out, b"ended ", u64::from(session), b' ')?;
    add_end(out, how)?;
    out.byte(b'\n')
}

/// The last line.
#[tactic(auto, unfolding(crate::specs::Printing::end_line))]
pub fn print_last(out: &mut Out, entries: u64) -> Result<(), Memory>
    ensures { OnOk result (out.new ≡ out.old ++ text.end_line entries) }
{
    add_numbered(out, b"end ", entries, b'\n')
}

/// The line that sums up a history.
#[tactic(auto, unfolding(crate::specs::Printing::summary_line))]
pub fn print_summary(out: &mut Out, entries: u64, opened: u64, refused: u64) -> Result<(), Memory>
    ensures { OnOk result (out.new ≡ out.old ++ text.summary_line entries opened refused) }
{
    add_numbered(out, b"entries ", entries, b' ')?;
    add_numbered(out, b"opened ", opened, b' ')?;
    add_numbered(out, b"refused ", refused, b'\n')
}

/// The line of a payload that is sent.
#[tactic(auto, unfolding(crate::specs::Printing::line_text))]
fn print_send(out: &mut Out, session: u32, first: u8, payload: &[u8]) -> Result<(), Memory>
    ensures { OnOk result (out.new ≡ out.old ++ line_text session (Sends (record { first = first; payload = payload.now }))) }
{
    add_numbered(out, b"send ", u64::from(session), b' ')?;
    add_number(out, u64::from(first))?;
    out.byte(b' ')?;
    add_hex(out, payload)?;
    out.byte(b'\n')
}

/// The lines of payloads that are sent, the first with a sequence id.
pub fn print_sends(out: &mut Out, session: u32, first: u8, payloads: &[Bytes]) -> Result<(), Memory>
    ensures { OnOk result (out.new ≡ out.old ++ lines_text session (send_lines (sent_from first payloads.now))) }
{
    let mut next = first;
    'payloads: for payload in payloads {
        print_send(out, session, next, payload.as_slice())?;
        next = id_behind(next, payload.as_slice());
    }
    Ok(())
}
