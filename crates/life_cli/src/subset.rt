// The lines that are run.

ghost use Rattle.std.specs.Prelude.{◌↔◌, IfSome, IsNone, IsTrue};
ghost use Rattle.script_runs.specs.Lines.{AreSteadyLines, AreSteadyWords, IsSteadyLine};
ghost use Rattle.life_cli.specs.Outcome.{IsFirstNotRun};

use script::{Command, Script, Spoken};

/// Whether the words of a whole call are run.
fn is_run_call(spoken: &Spoken) -> bool
    ensures { IsTrue result ↔ AreSteadyWords spoken.now }
{
    match spoken {
        Spoken::Create { .. }
        | Spoken::Tmpfile { .. }
        | Spoken::Link { .. }
        | Spoken::Unlink { .. }
        | Spoken::Grow { .. }
        | Spoken::Cut { .. }
        | Spoken::Stat { .. }
        | Spoken::Sync
        | Spoken::Home => true,
        Spoken::Open { .. }
        | Spoken::Close { .. }
        | Spoken::Gc
        | Spoken::Flush { .. }
        | Spoken::Reclaim { .. } => false,
    }
}

/// Whether what a line asks for is run.
fn is_run(command: &Command) -> bool
    ensures { IsTrue result ↔ IsSteadyLine command.now }
{
    match command {
        Command::Mount | Command::Unmount | Command::Stop => true,
        Command::Arm { count, .. } => *count >= 1,
        Command::Whole { actor, spoken } => *actor == 0 && is_run_call(spoken),
        Command::Bind { .. }
        | Command::Begin { .. }
        | Command::Step { .. }
        | Command::Finish { .. } => false,
    }
}

/// The number of the first line that is in the grammar and not run yet, if there is one.
pub(crate) fn first_not_run(script: &Script) -> Option<u64>
    ensures none { IsNone result → AreSteadyLines script.now }
    ensures first { IfSome result (IsFirstNotRun script.now) }
{
    for line in script.lines() {
        if !is_run(&line.command) {
            return Some(line.number);
        }
    }
    None
}
