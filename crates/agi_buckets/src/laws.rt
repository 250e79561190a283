// What the definitions have been proved to mean: the law is the contract of a function that does nothing.

ghost use Rattle.std.specs.Prelude.{◌≡◌, ◌==◌, ◌<◌, ◌≤◌, ℕ, List, [], Contains, count_by, replicate};
ghost use Rattle.agi_buckets.specs.Buckets.{Pointers, AreBuckets, list_at};
ghost use Rattle.life_limits.specs.declared.TheConstants.{BUCKETS, NO_INODE};

/// A law: pointers give at most one list for each bucket, and no inode stands twice in a list. Heads that are all the end mark give empty lists.
pub fn pointers_give_one_list()
    ensures one { (p : Pointers) (first second : List (List ℕ)) → AreBuckets p first → AreBuckets p second → first ≡ second }
    ensures once { (p : Pointers) (lists : List (List ℕ)) (bucket agino : ℕ) → AreBuckets p lists → bucket < BUCKETS
        → count_by (λ other. other == agino) (list_at lists bucket) ≤ 1 }
    ensures empty { (p : Pointers) → p.heads ≡ replicate BUCKETS NO_INODE → ¬ Contains p.places NO_INODE → AreBuckets p (replicate BUCKETS []) }
{}
