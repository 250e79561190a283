// Laws of the definitions. Each is the contract of a function that does nothing but call the laws that its own rests on.

ghost use Rattle.std.specs.Prelude.{ℕ};
ghost use Rattle.life_table.specs.declared.table.Table.{Table};
ghost use Rattle.life_table.specs.History.{closed};
ghost use Rattle.sound_image.specs.Encoding.{Layouts};
ghost use Rattle.group_ops.specs.Changes.{with_room};
ghost use Rattle.group_ops.specs.Represents.{IsGroupOf};
ghost use Rattle.group_ops.specs.Values.{StateValue};

use group_frame::encodings_pass_over_holds;
use life_table::tables_stay_well_formed;

/// A law: a state that is the group of a table is the group of that table with nobody holding a row; and so is the state with any other room.
pub fn groups_pass_over_holds()
    ensures holds { (s : StateValue) (t : Table) (layouts : Layouts) → IsGroupOf s t layouts → IsGroupOf s (closed t) layouts }
    ensures room { (s : StateValue) (room : ℕ) (t : Table) (layouts : Layouts) → IsGroupOf s t layouts → IsGroupOf (with_room s room) t layouts }
{
    tables_stay_well_formed();
    encodings_pass_over_holds();
}
