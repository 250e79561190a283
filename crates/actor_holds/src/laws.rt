// What holds have to do with rows. The law is the contract of a function that does nothing but call the laws that its own rests on.

ghost use Rattle.std.specs.Prelude.{◌≡◌, ℕ, List, length};
ghost use Rattle.life_table.specs.declared.types.Entry.{Entry};
ghost use Rattle.life_table.specs.declared.table.Table.{Table};
ghost use Rattle.life_table.specs.History.{LegalHistory, closed};
ghost use Rattle.life_table.specs.WellFormed.{IsTable};
ghost use Rattle.run_history.specs.Answers.{holds_in};
ghost use Rattle.actor_holds.specs.Holds.{AreHolds};

use life_table::{holders_have_rows, lowest_keys_are_least, tables_stay_well_formed};

/// A law: behind a legal history that begins with nobody holding anything, and that opens and closes nothing, a set of its holds has as many as the rows of the table have.
pub fn holds_are_of_rows()
    ensures { (start t : Table) (entries : List Entry) (held : List (ℕ × ℕ × ℕ)) → IsTable start → closed start ≡ start → LegalHistory start entries t → AreHolds entries held → length held ≡ holds_in t }
{
    lowest_keys_are_least();
    tables_stay_well_formed();
    holders_have_rows();
}
