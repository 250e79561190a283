// Why a script is not read.

use life_ports::NoMemory;
use std::alloc::{AllocError, AllocFailed};
use thiserror::Error;

/// Why a script is not read.
#[derive(Clone, Copy, Debug, PartialEq, Eq, Error)]
pub enum ScriptFault {
    /// This line, counted from 1, is the first that is not in the grammar. Of the rules that it breaks this is the
    /// least: 1 for a byte that is neither a blank nor printable, 2 for a first word that is neither an actor's letter
    /// nor a command, 3 for the number of words, 4 for a word's form, 5 where a call's command has to follow an actor
    /// and another word does.
    #[error("line {line} breaks rule {rule}")]
    Outside { line: u64, rule: u32 },
    #[error("no memory")]
    NoMemory,
}

impl<T: Drop> From<AllocFailed<T>> for ScriptFault {
    ghost use Rattle.std.specs.Prelude.{◌≡◌};
    ghost use Rattle.script.specs.declared.fault.ScriptFault.TheVariants.{NoMemory};

    ghost from_gives = { λ _ e. e ≡ NoMemory };

    fn from(_: AllocFailed<T>) -> Self {
        ScriptFault::NoMemory
    }
}

/// A rule of the grammar. A line is checked by them in this order.
#[derive(Clone, Copy)]
pub enum Rule {
    /// Each byte is a blank or printable.
    Bytes,
    /// The first word is an actor's letter or a command.
    FirstWord,
    /// There are as many words as the command takes.
    WordCount,
    /// Each word is of its form.
    WordForm,
    /// A call's command follows an actor.
    CallFollows,
}

impl Rule {
    ghost use Rattle.std.specs.Prelude.{◌≡◌};
    ghost use Rattle.script.specs.Rules.{rule_number};

    /// The number by which the rule is named.
    pub fn number(self) -> u32
        ensures { result ≡ rule_number self }
    {
        match self {
            Rule::Bytes => 1,
            Rule::FirstWord => 2,
            Rule::WordCount => 3,
            Rule::WordForm => 4,
            Rule::CallFollows => 5,
        }
    }
}

/// Why a line is not read.
#[derive(Clone, Copy)]
pub(crate) enum LineFault {
    /// The least rule that it breaks.
    Breaks(Rule),
    NoMemory,
}

impl LineFault {
    ghost use Rattle.std.specs.Prelude.{◌≡◌};
    ghost use Rattle.script.specs.Reading.{fault_at};

    /// Why a script is not read of which the line of this number is not.
    pub(crate) fn at(self, line: u64) -> ScriptFault
        ensures { result ≡ fault_at line self }
    {
        match self {
            LineFault::Breaks(rule) => ScriptFault::Outside {
                line,
                rule: rule.number(),
            },
            LineFault::NoMemory => ScriptFault::NoMemory,
        }
    }
}

impl From<AllocError> for LineFault {
    ghost use Rattle.std.specs.Prelude.{◌≡◌};
    ghost use Rattle.script.specs.declared.fault.LineFault.TheVariants.{NoMemory};

    ghost from_gives = { λ _ e. e ≡ NoMemory };

    fn from(_: AllocError) -> Self {
        LineFault::NoMemory
    }
}
