// Answers of lines.

ghost use Rattle.std.specs.Prelude.{◌≡◌};
ghost use Rattle.run_history.specs.Answers.{line_said};
ghost use Rattle.script_runs.specs.declared.running.Comes.TheVariants.{Answered};

use crate::running::{Comes, Run};
use disk_model::Disk;
use script::{LineReply, Said};

/// A reply that is no call's, as the answer of a line.
pub(crate) fn said_line(reply: LineReply) -> Said
    ensures { result ≡ line_said reply }
{
    Said::Line { actor: None, reply }
}

/// A line that is answered so.
pub(crate) fn answered<D: Disk>(run: Run<D>, reply: LineReply) -> Comes<D>
    ensures { result ≡ Answered run (line_said reply) }
{
    Comes::Answered(run, said_line(reply))
}
