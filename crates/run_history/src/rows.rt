// A run that is worked out.

ghost use Rattle.std.specs.Prelude.{◌∷◌, [], List, Some, take};
ghost use Rattle.life_table.specs.declared.types.MountRecord.{MountRecord};
ghost use Rattle.script.specs.declared.status.Status.TheVariants as status;
ghost use Rattle.run_history.specs.States.{RunState};
ghost use Rattle.run_history.specs.Output.{Writes};
ghost use Rattle.run_history.specs.Headline.{IsOneHistory, Replies};
ghost use Rattle.run_history.specs.Rows.{beside_lines, beside_record, beside_said, key_a, key_b, row_lines, row_output, row_records, row_said, row_table};

/// Two files are made, of which a sync acknowledges the first; a crash; then a mount, and its end. The definitions hold of the right answers, which are written so;
/// they do not hold where the second mount loses what was acknowledged, where the first file gets another key than the lowest, or where the last answer is missing, as
/// an answer or as what is written.
pub fn worked_runs_are_told_apart()
    ensures right { (last : RunState) × IsOneHistory row_table 1 row_lines status.Good (row_said 1) (row_records key_a 1) last }
    ensures written { Writes (Some []) (Some (row_output 7)) (row_said 1) (row_records key_a 1) status.Good status.Good }
    ensures cut_short { ¬ Writes (Some []) (Some (row_output 6)) (row_said 1) (row_records key_a 1) status.Good status.Good }
    ensures lost { (last : RunState) → ¬ IsOneHistory row_table 1 row_lines status.Good (row_said 0) (row_records key_a 0) last }
    ensures other_key { (last : RunState) → ¬ IsOneHistory row_table 1 row_lines status.Good (row_said 1) (row_records key_b 1) last }
    ensures dropped { (mounts : List MountRecord) (last : RunState) → ¬ Replies row_table row_lines status.Good (take 6 (row_said 1)) mounts last }
{}

/// A makes a file and begins to unlink it; B opens it between A's steps, and waits for A's lock with its next call. The definitions hold of these answers, which are not in the
/// order of the entries.
pub fn steps_of_two_actors_are_told()
    ensures { (last : RunState) × IsOneHistory row_table 1 beside_lines status.Good beside_said (beside_record ∷ []) last }
{}
