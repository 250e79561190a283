// Laws of the definitions. Each is the contract of a function that does nothing.

ghost use Rattle.std.specs.Prelude.{◌≡◌, ◌≢◌, ◌↔◌, ◌<◌, ◌/◌, ℕ, List, [], Some, length, map};
ghost use Rattle.std.specs.Option.{option_map};
ghost use Rattle.life_limits.specs.declared.TheConstants.{GROUP_NUMBERS};
ghost use Rattle.life_bytes.specs.declared.sector.Sector.{Sector};
ghost use Rattle.geometry.specs.declared.shape.Geometry.{Geometry};
ghost use Rattle.life_table.specs.declared.key.Key.{Key};
ghost use Rattle.life_table.specs.declared.types.Call.{Call};
ghost use Rattle.life_table.specs.declared.types.Reply.{Reply};
ghost use Rattle.life_table.specs.declared.table.Table.{Table};
ghost use Rattle.life_table.specs.Table.{Group, group_at, group_number, inode_in, map_group, row_of, with_group};
ghost use Rattle.life_table.specs.Legal.{Frees, Permits, after_call, freed};
ghost use Rattle.life_table.specs.Replies.{reply_of};
ghost use Rattle.life_table.specs.WellFormed.{IsTable};
ghost use Rattle.life_table.specs.History.{closed, closed_inode};
ghost use Rattle.group_core.specs.GroupHistory.{call_group};
ghost use Rattle.sound_image.specs.Rules.{free_set};
ghost use Rattle.sound_image.specs.Encoding.{AreLayouts, CanEncode, Layouts, chunk_record, encoded, metadata};
ghost use Rattle.group_frame.specs.Frames.{AgreesAt, alone};

use encoded_changes::created_keys_are_free;
use life_table::tables_stay_well_formed;

/// A law: a table and the one with the other groups emptied agree at the group that is left, and what legally is a table stays one. Holds are passed over.
pub fn groups_stand_apart()
    ensures agrees { (t : Table) (g : ℕ) → g < length t.groups → AgreesAt g t (alone t g) }
    ensures empty { (t : Table) (g other : ℕ) → other ≢ g → group_at (alone t g) other ≡ [] }
    ensures well_formed { (t : Table) (g : ℕ) → IsTable t → IsTable (alone t g) }
    ensures closed { (t : Table) (g : ℕ) → closed (alone t g) ≡ alone (closed t) g }
    ensures rows { (g : ℕ) (t u : Table) (key : Key) → AgreesAt g t u → group_number key ≡ g → row_of u key ≡ row_of t key }
    ensures same { (g : ℕ) (t : Table) → AgreesAt g t t }
    ensures back { (g : ℕ) (t u : Table) → AgreesAt g t u → AgreesAt g u t }
    ensures along { (g : ℕ) (t u v : Table) → AgreesAt g t u → AgreesAt g u v → AgreesAt g t v }
{}

/// A law: a call in a group asks the chunks of that group alone, and changes them alone. Tables that agree at the group give it the same replies and agree there
/// afterwards; the other groups stay, so that the group put back into the table gives the whole table after the call.
pub fn calls_stay_in_their_group()
    ensures permits { (g : ℕ) (t u : Table) (called : Call) (answer : Reply) → call_group called ≡ Some g → AgreesAt g t u → Permits t called answer → Permits u called answer }
    ensures reply { (g : ℕ) (t u : Table) (called : Call) → call_group called ≡ Some g → AgreesAt g t u → reply_of u called ≡ reply_of t called }
    ensures after { (g : ℕ) (t u : Table) (called : Call) (answer : Reply) → IsTable t → call_group called ≡ Some g → g < length t.groups → AgreesAt g t u
        → Permits t called answer → AgreesAt g (after_call t called answer) (after_call u called answer) }
    ensures put_back { (g : ℕ) (t u : Table) (called : Call) (answer : Reply) → IsTable t → call_group called ≡ Some g → g < length t.groups → AgreesAt g t u
        → Permits t called answer → after_call t called answer ≡ with_group t g (group_at (after_call u called answer) g) }
    ensures others { (g other : ℕ) (t : Table) (called : Call) (answer : Reply) → IsTable t → call_group called ≡ Some g → other ≢ g
        → Permits t called answer → group_at (after_call t called answer) other ≡ group_at t other }
{
    created_keys_are_free();
}

/// A law: the same of a free, which is in the group of its key.
pub fn frees_stay_in_their_group()
    ensures awaits { (g : ℕ) (t u v : Table) (key : Key) → group_number key ≡ g → AgreesAt g t u → Frees t key v → Frees u key (freed u key) }
    ensures after { (g : ℕ) (t u : Table) (key : Key) → group_number key ≡ g → g < length t.groups → AgreesAt g t u → AgreesAt g (freed t key) (freed u key) }
    ensures put_back { (g : ℕ) (t u : Table) (key : Key) → group_number key ≡ g → g < length t.groups → AgreesAt g t u
        → freed t key ≡ with_group t g (group_at (freed u key) g) }
    ensures others { (g other : ℕ) (t : Table) (key : Key) → group_number key ≡ g → other ≢ g → group_at (freed t key) other ≡ group_at t other }
{}

/// A law: the layouts of a table and the sectors that encode it are those of the table without holds; so are the records of its chunks and its free blocks. Each
/// inode of the table without holds is that of the table, without holds.
pub fn encodings_pass_over_holds()
    ensures metadata { (g : Geometry) (layouts : Layouts) (group : ℕ) (chunks : Group) (place : ℕ)
        → metadata g layouts group (map_group closed_inode chunks) place ≡ metadata g layouts group chunks place }
    ensures layouts { (t : Table) (layouts : Layouts) → AreLayouts t layouts ↔ AreLayouts (closed t) layouts }
    ensures encoded { (g : Geometry) (t : Table) (layouts : Layouts) (image : List Sector) → encoded g (closed t) layouts image ≡ encoded g t layouts image }
    ensures encodes { (g : Geometry) (t : Table) (layouts : Layouts) (image : List Sector) → CanEncode g t layouts image → CanEncode g (closed t) layouts image }
    ensures groups { (t : Table) (g : ℕ) → group_at (closed t) g ≡ map_group closed_inode (group_at t g) }
    ensures inodes { (chunks : Group) (agino : ℕ) → inode_in (map_group closed_inode chunks) agino ≡ option_map closed_inode (inode_in chunks agino) }
    ensures records { (chunks : Group) → map chunk_record (map_group closed_inode chunks) ≡ map chunk_record chunks }
    ensures free { (blocks : ℕ) (chunks : Group) → free_set blocks (map_group closed_inode chunks) ≡ free_set blocks chunks }
{
    tables_stay_well_formed();
}
