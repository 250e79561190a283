//! The language of scripts: which lines there are and what they ask for, and the texts of what a run answers.
//!
//! A script is lines, which end with a line feed; the last may lack it. An empty line, and one that begins with `#`, is
//! skipped. Every other line is words, with one blank between them.
//!
//! | line | what it is read as |
//! |---|---|
//! | `mount`, `unmount`, `stop` | `Mount`, `Unmount`, `Stop` |
//! | `stop COUNT FIRST` | `Arm` |
//! | `name NAME HANDLE` | `Bind` |
//! | `begin ACTOR CALL` | `Begin` |
//! | `step ACTOR`, `finish ACTOR` | `Step`, `Finish` |
//! | `ACTOR CALL`, or `CALL` of actor A | `Whole` |
//!
//! | CALL | its words |
//! |---|---|
//! | `create`, `tmpfile` | GROUP NAME |
//! | `open`, `close`, `link`, `unlink`, `stat` | NAME |
//! | `grow`, `cut` | NAME BLOCKS |
//! | `flush`, `reclaim` | GROUP |
//! | `sync`, `home`, `gc` | none |
//!
//! | word | its form |
//! |---|---|
//! | ACTOR | a letter from A to Z |
//! | NAME | `a` to `z`, and up to 15 of `a` to `z` and `0` to `9` behind it |
//! | HANDLE | an inode's number, a dot and its generation, as `life_table` reads them |
//! | GROUP, FIRST | a number of 32 bits |
//! | COUNT | the same, but not 0 |
//! | BLOCKS | 1 to 16,384 |
//!
//! Numbers are decimal and have no zero in front. A line that is refused is named with the least rule that it breaks:
//!
//! | rule | broken by |
//! |---|---|
//! | 1 | a byte that is no blank and not printable ASCII |
//! | 2 | a first word that is no actor's letter, no call and no word that a line of the first table begins with |
//! | 3 | too many words or too few for the command that was found; an actor with nothing behind it |
//! | 4 | a word that has not the form of its place |
//! | 5 | a word behind an actor, where a call has to stand and none does |
//!
//! `specs/Rules.antt` has the rules, `specs/Meaning.antt` what is read of a line, and `specs/Texts.antt` the texts.
#![tactic(auto)]

mod answers;
mod commands;
mod fault;
mod laws;
mod name;
mod parser;
mod pieces;
mod printer;
mod read;
mod status;
mod texts;
mod types;
mod words;

pub use answers::{GroupStory, LineReply, Said};
pub use fault::{Rule, ScriptFault};
pub use laws::{one_command, one_first_fault};
pub use name::Name;
pub use parser::parse;
pub use printer::{no_memory_line, print, print_run, print_status};
pub use status::Status;
pub use types::{Command, Line, Script, Spoken};
