// Laws of the grammar.

ghost use Rattle.std.specs.Prelude.{◌≡◌, List, ℕ};
ghost use Rattle.script.specs.declared.types.Command.{Command};
ghost use Rattle.script.specs.Meaning.{IsCommand, Denotes};
ghost use Rattle.script.specs.Scripts.{asking_lines, IsFirstFault, IsInGrammar};

/// A script that is in the grammar has no first line outside it, and no script has two.
pub fn one_first_fault()
    ensures none { (bytes : List ℕ) (line rule : ℕ) → IsInGrammar bytes → IsFirstFault (asking_lines bytes) line rule → ⊥ }
    ensures one { (bytes : List ℕ) (line rule other named : ℕ) → IsFirstFault (asking_lines bytes) line rule
        → IsFirstFault (asking_lines bytes) other named → (line ≡ other) × (rule ≡ named) }
{}

/// No words are two commands, so what a line is read as is the one command that it denotes.
pub fn one_command()
    ensures { (words : List (List ℕ)) (a b : Command) → IsCommand a → IsCommand b → Denotes words a → Denotes words b → a ≡ b }
{}
