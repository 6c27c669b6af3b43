//! The replay of a script: its events happen in a world, one by one, and their lines are printed.

ghost use Rattle.loginctl.specs.Replayed as text;
ghost use Rattle.loginctl.specs.Replayed.{IsDue, end_of, script_text, start_of};
ghost use Rattle.loginctl.specs.Generated as summed;
ghost use Rattle.loginctl.specs.Generated.{IsSummedUp};
ghost use Rattle.session_world.specs.Replays.{text_of};
ghost use Rattle.session_world.specs.Standing.{Mirrors};
ghost use Rattle.std.specs.Prelude.{◌≡◌, IfOk};

use crate::printing::add_number;
use crate::status::Status;
use large_script::{SESSIONS, generate};
use lg_base::{Memory, Out};
use script_text::{Script, ScriptFault};
use session_world::World;
use session_world::laws::{histories_are_legal, replies_are_told, sessions_are_transcripts};
use std::alloc::Global;

/// The most bytes of a script.
pub const LONGEST_SCRIPT: usize = 16_777_216;

/// What is due for an input: a status, and a text to print.
#[derive(Drop)]
pub struct Outcome {
    pub status: Status,
    pub text: Out,
}

/// The world after a script's events, and their lines.
fn run_script(alloc: Global, script: &Script) -> Result<(World, Out), Memory>
    ensures world { IfOk result (λ run. Mirrors run.0 (end_of script.now)) }
    ensures lines { IfOk result (λ run. run.1 ≡ text_of (start_of script.now) (script.now).events) }
{
    let mut world = World::new(alloc, script.setup())?;
    let mut out = Out::new(alloc);
    'events: for event in script.events() {
        world.step(event, &mut out)?;
    }
    Ok((world, out))
}

/// The lines of a script's events, and the last line.
fn replayed(alloc: Global, script: &Script) -> Result<Out, Memory>
    ensures { IfOk result (λ text. text ≡ script_text script.now) }
{
    let (world, mut text) = run_script(alloc, script)?;
    world.finish(&mut text)?;
    Ok(text)
}

/// The line that sums up the large run of a number.
#[tactic(auto, unfolding(crate::specs::Generated::generated_line))]
fn generated_line(alloc: Global, number: u32) -> Result<Out, Memory>
    ensures { IfOk result (λ line. line ≡ summed.generated_line number) }
{
    let script = generate(alloc, number)?;
    let (world, _lines) = run_script(alloc, &script)?;
    let mut line = Out::new(alloc);
    line.bytes(b"sessions ")?;
    add_number(&mut line, u64::from(SESSIONS))?;
    line.byte(b' ')?;
    world.summary(&mut line)?;
    Ok(line)
}

/// What the large run of a number prints.
pub fn sum_up(alloc: Global, number: u32) -> Result<Out, Memory>
    ensures { IfOk result (IsSummedUp number) }
{
    // The law: the entries that a script's events print are a legal history.
    histories_are_legal();
    generated_line(alloc, number)
}

/// The line for an input that is no script.
#[tactic(auto, unfolding(crate::specs::Replayed::bad_line))]
fn bad_line(alloc: Global, number: u64) -> Result<Out, Memory>
    ensures { IfOk result (λ line. line ≡ text.bad_line number) }
{
    let mut line = Out::new(alloc);
    line.bytes(b"bad line ")?;
    add_number(&mut line, number)?;
    line.byte(b'\n')?;
    Ok(line)
}

/// What is due for an input that is no script.
fn refused(alloc: Global, line: u64) -> Result<Outcome, Memory>
    ensures status { IfOk result (λ due. due.status ≡ Status.BadInput) }
    ensures line { IfOk result (λ due. due.text ≡ text.bad_line line) }
{
    Ok(Outcome {
        status: Status::BadInput,
        text: bad_line(alloc, line)?,
    })
}

/// What is due for an input.
pub fn due_for(alloc: Global, input: &[u8]) -> Result<Outcome, Memory>
    ensures { IfOk result (λ due. IsDue input.now due.status due.text) }
{
    if input.len() > LONGEST_SCRIPT {
        return refused(alloc, 0);
    }
    // The laws: the entries that a script's events print are a legal history, what they print of each session is a
    // transcript, and in it each reply is told.
    histories_are_legal();
    sessions_are_transcripts();
    replies_are_told();
    match Script::read(alloc, input) {
        Ok(script) => Ok(Outcome {
            status: Status::Done,
            text: replayed(alloc, &script)?,
        }),
        Err(ScriptFault::BadLine { line }) => refused(alloc, line),
        Err(ScriptFault::Memory) => Err(Memory),
    }
}
