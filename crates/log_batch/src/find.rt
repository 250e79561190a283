// The places of images, by the sector that they belong to.
ghost use Rattle.std.specs.Prelude.{◌≡◌, ◌<◌, MatchResult, vec_len, vec_capacity};
ghost use Rattle.log_batch.specs.Put.{IsAt, IsGap, KeysRise, put_by};

/// Where an image stands: the sector that it belongs to, the place of its commit, and its place there.
#[derive(Clone, Copy)]
pub(crate) struct Pick {
    pub home: u64,
    pub commit: usize,
    pub image: usize,
}

/// Where the pick of a home is, or where it would go.
fn find(picks: &[Pick], home: u64) -> Result<usize, usize>
    requires { KeysRise (λ p. p.home) 0 picks.now }
    ensures { MatchResult result (IsAt (λ p. p.home) picks.now home) (IsGap (λ p. p.home) picks.now home) }
{
    picks.binary_search_by_key(&home, |pick| pick.home)
}

/// Puts a pick in its place, over one of the same home.
pub(crate) fn put_pick(picks: &mut Vec<Pick>, pick: Pick)
    requires order { KeysRise (λ p. p.home) 0 picks.old.items }
    requires room { vec_len picks.old < vec_capacity picks.old }
    ensures put { picks.new.items ≡ put_by (λ p. p.home) pick picks.old.items }
    ensures capacity { vec_capacity picks.new ≡ vec_capacity picks.old }
{
    match find(picks, pick.home) {
        Ok(at) => picks[at] = pick,
        Err(at) => {
            let _ = picks.insert(at, pick);
        }
    }
}
