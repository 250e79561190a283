// What the definitions have been proved to mean: the law is the contract of a function that does nothing.

ghost use Rattle.std.specs.Prelude.{◌≡◌, ℕ, List, length, take};
ghost use Rattle.life_table.specs.declared.key.Key.{Key};
ghost use Rattle.life_table.specs.declared.types.Call.{Call};
ghost use Rattle.life_table.specs.declared.types.Call.TheVariants.{OpenKey};
ghost use Rattle.life_table.specs.declared.types.Reply.{Reply};
ghost use Rattle.life_table.specs.declared.types.Event.TheVariants.{Called, Freed};
ghost use Rattle.life_table.specs.declared.types.Entry.{Entry};
ghost use Rattle.life_table.specs.declared.table.Table.{Table};
ghost use Rattle.life_table.specs.History.{After, changes, closed};
ghost use Rattle.life_table.specs.Legal.{Frees, IsNoHold, Legal};
ghost use Rattle.life_table.specs.WellFormed.{IsTable};
ghost use Rattle.group_core.specs.GroupHistory.{HappensUnheld, LegalGroupHistory};

use life_table::{changes_pass_over_holds, tables_stay_well_formed};

/// A law: a legal history of a group leads from one table to one table, to which its changes alone lead too; its first so many changes lead to the table of
/// some moment between. Tables without holds stay so, and well formed tables stay well formed.
pub fn histories_lead_to_one_table()
    ensures one { (g : ℕ) (first last other : Table) (entries : List Entry) → LegalGroupHistory g first entries last
        → LegalGroupHistory g first entries other → last ≡ other }
    ensures unheld { (g : ℕ) (first last : Table) (entries : List Entry) → closed first ≡ first → LegalGroupHistory g first entries last
        → closed last ≡ last }
    ensures changes { (g : ℕ) (first last : Table) (entries : List Entry) → closed first ≡ first → LegalGroupHistory g first entries last
        → After first entries (length (changes entries)) ≡ last }
    ensures between { (g : ℕ) (first last : Table) (entries : List Entry) (n : ℕ) → closed first ≡ first → LegalGroupHistory g first entries last
        → (count : ℕ) × (middle : Table) × LegalGroupHistory g first (take count entries) middle × (After first entries n ≡ middle) }
    ensures well_formed { (g : ℕ) (first last : Table) (entries : List Entry) → IsTable first → LegalGroupHistory g first entries last → IsTable last }
{
    changes_pass_over_holds();
    tables_stay_well_formed();
}

/// A law: what legally happens to a table, holds aside, is what may happen to it without holds; but for a close, which has no entry there. An open leaves a
/// table without holds.
pub fn legal_events_happen_unheld()
    ensures call { (t u : Table) (called : Call) (answer : Reply) → IsNoHold called → Legal t called answer u
        → HappensUnheld (closed t) (Called called answer) (closed u) }
    ensures open { (t u : Table) (key : Key) (answer : Reply) → Legal t (OpenKey key) answer u
        → HappensUnheld (closed t) (Called (OpenKey key) answer) (closed u) }
    ensures open_leaves { (t u : Table) (key : Key) (answer : Reply) → closed t ≡ t → HappensUnheld t (Called (OpenKey key) answer) u → u ≡ t }
    ensures free { (t u : Table) (key : Key) → Frees t key u → HappensUnheld (closed t) (Freed key) (closed u) }
{
    changes_pass_over_holds();
}
