// Laws of the definitions. Each is the contract of a function that does nothing.

ghost use Rattle.std.specs.Prelude.{◌≡◌, ◌≤◌, ◌∷◌, ◌++◌, [], ℕ, IsTrue, List, Some, slice_get};
ghost use Rattle.life_ports.specs.Faults.{Rose};
ghost use Rattle.life_table.specs.declared.types.MountRecord.{MountRecord};
ghost use Rattle.script.specs.declared.answers.Said.{Said};
ghost use Rattle.run_faults.specs.News.{call_finds_down, end_finds_down, flush_fails, news_of};
ghost use Rattle.run_faults.specs.Log.{DownUntilOver, KeepToLog, LogKnown, MaySay, known_behind, no_mount};
ghost use Rattle.run_faults.specs.Told.{faults_told, is_fault};
ghost use Rattle.run_faults.specs.Progress.{HasTold, RecordsGrow};

/// A law: where no answer of a run tells of a fault, none is that the log is down.
pub fn runs_without_faults_are_never_down()
    ensures { (mounts : List MountRecord) (said : List Said) (i : ℕ) (one : Said) → KeepToLog mounts no_mount said → faults_told mounts said ≡ 0
        → slice_get said i ≡ Some one → (¬ (news_of mounts one ≡ call_finds_down)) × (¬ (news_of mounts one ≡ end_finds_down)) }
{}

/// A law: behind an answer that a flush failed while a mount was up, each sync and each home finds the log down until the mount is over.
pub fn failed_flushes_leave_logs_down()
    ensures { (mounts : List MountRecord) (known : LogKnown) (flush : Said) (said : List Said) → KeepToLog mounts known (flush ∷ said) → ¬ (known ≡ no_mount)
        → news_of mounts flush ≡ flush_fails → DownUntilOver mounts said }
{}

/// A law: a run's answers go on one by one, while its records grow. So a loop over the lines keeps what they have told, and each turn owes it of the answer of its line.
pub fn runs_tell_on()
    ensures begins { (count : ℕ) → HasTold [] [] no_mount count count }
    ensures grows { (old new : List MountRecord) (said : List Said) (known : LogKnown) (before now later : ℕ) → HasTold old said known before now → RecordsGrow old new
        → now ≤ later → HasTold new said known before later }
    ensures goes_on { (mounts : List MountRecord) (said : List Said) (one : Said) (known : LogKnown) (before now later : ℕ) → HasTold mounts said known before now
        → MaySay known (news_of mounts one) → (IsTrue (is_fault (news_of mounts one)) → Rose now later) → now ≤ later
        → HasTold mounts (said ++ one ∷ []) (known_behind known (news_of mounts one)) before later }
{}
