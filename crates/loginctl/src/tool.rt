//! The command line of `loginctl`: what each form of its words does, and the status that it ends with.

ghost use Rattle.lg_outside.specs.Faults.{Rose};
ghost use Rattle.loginctl.specs.Generated.{AnswersGenerated};
ghost use Rattle.loginctl.specs.Tool.{Answers, AnswersOther, generated_by, is_frames_words, is_replay_words, usage_text};
ghost use Rattle.std.specs.Prelude.{◌≡◌, ◌≤◌, false, map, string_bytes};

use crate::frames::print_frames;
use crate::input::{ReadEnd, read_all};
use crate::login_words::choose;
use crate::logins::print_login;
use crate::printing::print;
use crate::replay::{LONGEST_SCRIPT, due_for, sum_up};
use crate::status::Status;
use lg_base::Memory;
use lg_outside::{Dial, Sink, Source};
use script_text::number_of;
use std::alloc::Global;

/// Whether the words are the one word `replay`.
fn is_replay(words: &[String]) -> bool
    ensures { result ≡ is_replay_words (map string_bytes words.now) }
{
    match words {
        [word] => word.as_bytes() == b"replay".as_slice(),
        _ => false,
    }
}

/// Whether the words are the one word `frames`.
fn is_frames(words: &[String]) -> bool
    ensures { result ≡ is_frames_words (map string_bytes words.now) }
{
    match words {
        [word] => word.as_bytes() == b"frames".as_slice(),
        _ => false,
    }
}

/// The number of a large run, where the words are `replay`, `--generate` and that number.
fn generated_by(words: &[String]) -> Option<u32>
    ensures { result ≡ generated_by (map string_bytes words.now) }
{
    match words {
        [word, option, number] => {
            if word.as_bytes() != b"replay".as_slice() {
                return None;
            }
            if option.as_bytes() != b"--generate".as_slice() {
                return None;
            }
            match number_of(number.as_bytes(), 4_294_967_295) {
                Some(number) => Some(number as u32),
                None => None,
            }
        }
        _ => None,
    }
}

/// The text for words of no form.
#[tactic(auto, unfolding(crate::specs::Tool::usage_text))]
fn usage() -> &'static [u8]
    ensures { result.now ≡ usage_text }
{
    b"usage: loginctl replay [--generate N] | login --socket PATH --user NAME [--password WORD] [--factor2 WORD] [--factor3 WORD] [--clear] [--expired] | frames\n"
}

/// Logs in where the words are those of a login, and else prints the usage.
fn login_or_usage<W: Sink, L: Dial>(
    alloc: Global,
    words: &[String],
    out: &mut W,
    link: &mut L,
) -> Status
    requires { L.finished link.old ≡ false }
    ensures answer { AnswersOther (map string_bytes words.now) (L.local link.old) (record {
      told = L.told link.old;
      dialled = L.dialled link.old;
      faults = L.fault_count link.old;
    }) (record {
      told = L.told link.new;
      dialled = L.dialled link.new;
      faults = L.fault_count link.new;
    }) (W.written out.old) (W.written out.new) (Rose (W.fault_count out.old) (W.fault_count out.new)) result }
    ensures stays { L.finished link.new ≡ false }
    ensures place { L.local link.new ≡ L.local link.old }
    ensures link { L.fault_count link.old ≤ L.fault_count link.new }
    ensures out { W.fault_count out.old ≤ W.fault_count out.new }
{
    match choose(alloc, words) {
        Ok(Some(chosen)) => print_login(alloc, &chosen, out, link),
        Ok(None) => print(out, usage(), Status::Usage),
        Err(Memory) => Status::NoMemory,
    }
}

/// Prints the line that sums up the large run of a number.
fn print_generated<W: Sink>(alloc: Global, number: u32, out: &mut W) -> Status
    ensures answer { AnswersGenerated number (W.written out.old) (W.written out.new) (Rose (W.fault_count out.old) (W.fault_count out.new)) result }
    ensures out { W.fault_count out.old ≤ W.fault_count out.new }
{
    match sum_up(alloc, number) {
        Ok(line) => print(out, line.as_slice(), Status::Done),
        Err(Memory) => Status::NoMemory,
    }
}

/// Does what the words say, and answers the status of the program.
///
/// For `replay` the input is a script of sessions, and what its events print is printed: status 0. Any other input
/// prints the number of its first line that doesn't fit, or 0 where it is longer than a script may be: 3. For
/// `replay --generate` and a number the input is left, the script of that large run is run in place of it, and one line
/// sums it up. For
/// `frames` the input is a stream of packets, each of which prints a line. A last line says how the stream ended:
/// after a packet, 0, or at a place where it is no packet or too long, 3. For `login` the link is connected to the
/// server at a socket, and the result of the client's login is printed: opened 0, refused 1, a link that fails 4, an
/// answer of no form or none 7, and what the client won't send 8. Words of no form print the usage: 2. A source that
/// fails gives 4, a sink that fails 5, and want of memory 6.
pub fn run_tool<S: Source, W: Sink, L: Dial>(
    alloc: Global,
    words: &[String],
    input: &mut S,
    out: &mut W,
    link: &mut L,
) -> Status
    requires { L.finished link.old ≡ false }
    ensures answer { Answers (map string_bytes words.now) (record {
      left = S.left input.old;
      faults = S.fault_count input.old;
    }) (record {
      left = S.left input.new;
      faults = S.fault_count input.new;
    }) (L.local link.old) (record {
      told = L.told link.old;
      dialled = L.dialled link.old;
      faults = L.fault_count link.old;
    }) (record {
      told = L.told link.new;
      dialled = L.dialled link.new;
      faults = L.fault_count link.new;
    }) (W.written out.old) (W.written out.new) (Rose (W.fault_count out.old) (W.fault_count out.new)) result }
    ensures stays { L.finished link.new ≡ false }
    ensures place { L.local link.new ≡ L.local link.old }
    ensures input { S.fault_count input.old ≤ S.fault_count input.new }
    ensures link { L.fault_count link.old ≤ L.fault_count link.new }
    ensures out { W.fault_count out.old ≤ W.fault_count out.new }
{
    if is_frames(words) {
        return print_frames(alloc, input, out);
    }
    if let Some(number) = generated_by(words) {
        return print_generated(alloc, number, out);
    }
    if !is_replay(words) {
        return login_or_usage(alloc, words, out, link);
    }
    let text = match read_all(alloc, input, LONGEST_SCRIPT) {
        Ok(text) => text,
        Err(ReadEnd::Fault) => return Status::InputFault,
        Err(ReadEnd::Memory) => return Status::NoMemory,
    };
    match due_for(alloc, text.as_slice()) {
        Ok(due) => print(out, due.text.as_slice(), due.status),
        Err(Memory) => Status::NoMemory,
    }
}
