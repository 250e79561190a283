// Scripts.

ghost use Rattle.std.specs.Prelude.{◌≡◌, ℕ, IfOk, OnOk, Err};
ghost use Rattle.script.specs.declared.fault.ScriptFault.TheVariants.{Outside};
ghost use Rattle.script.specs.Scripts as scripts;
ghost use Rattle.script.specs.Scripts.{asking_lines, AreReadAs, IsFirstFault, IsInGrammar};

use crate::fault::ScriptFault;
use crate::pieces::Pieces;
use crate::read::read_line;
use crate::types::{Line, Script};
use std::alloc::Global;

fn is_skipped(line: &[u8]) -> bool
    ensures { result ≡ scripts.is_skipped line.now }
{
    match line {
        [] => true,
        [first, ..] => *first == b'#',
    }
}

/// Reads a script. Its lines end with a line feed, which the last may lack. One that is empty or begins with `#` is
/// skipped, whatever stands behind. The words of each other line stand one blank apart.
///
/// A line is refused by the first of these rules that it breaks: 1, each byte is a blank or a printable one of ASCII;
/// 2, the first word is an actor's letter or a command; 3, there are as many words as the command takes; 4, each word
/// is of its form; 5, behind an actor a call's command follows.
pub fn parse(alloc: Global, bytes: &[u8]) -> Result<Script, ScriptFault>
    ensures read { IfOk result (AreReadAs (asking_lines bytes.now)) }
    ensures inside { OnOk result (IsInGrammar bytes.now) }
    ensures outside { (line rule : ℕ) → result ≡ Err (Outside line rule) → IsFirstFault (asking_lines bytes.now) line rule }
{
    let mut read = Vec::new(alloc);
    let mut lines = Pieces::new(bytes, b'\n');
    let mut number: u64 = 0;
    while let Some(line) = lines.next() {
        number += 1;
        if is_skipped(line) {
            continue;
        }
        match read_line(alloc, line) {
            Ok(command) => read.push(Line { number, command })?,
            Err(fault) => return Err(fault.at(number)),
        }
    }
    Ok(Script::from_vec(read))
}
