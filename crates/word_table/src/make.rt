// The making of a cache.
ghost use Rattle.std.specs.Prelude.{◌≡◌, ◌+◌, ◌*◌, ◌≤◌, ◌<◌, ℕ, IfOk, replicate, length};
ghost use Rattle.geometry.specs.Places.{anchor_of, group_sectors};
ghost use Rattle.geometry.specs.Shape.{IsGeometry};
ghost use Rattle.word_table.specs.Ends.{AreKeepers, AreNewParts, IsMaker, seat_state};
ghost use Rattle.word_table.specs.Known.{maker_knows, new_keeper, nothing_known};

use crate::cache::Cache;
use crate::keeper::Keeper;
use crate::rule::{MakeKeeper, MakeSession, WordTable};
use crate::session::Session;
use geometry::Geometry;
use life_limits::BLOCK_SECTORS;
use life_ports::NoMemory;
use std::alloc::Global;

/// A new cache, and all who step on its words.
#[derive(Drop)]
pub struct CacheParts {
    pub cache: Cache,
    pub sessions: Vec<Session>,
    /// One keeper a group, in the order of the groups, and a last one that keeps no word.
    pub keepers: Vec<Keeper>,
}

// A cache with no inode in it, and who makes its sessions and keepers.
fn make_table(alloc: Global, g: &Geometry) -> Result<(Cache, Keeper), NoMemory>
    requires { IsGeometry g.now }
    ensures geometry { IfOk result (λ made. made.0.geometry ≡ g.now) }
    ensures maker { IfOk result (λ made. IsMaker made.0 0 made.1) }
{
    let count = (g.groups * (g.blocks * BLOCK_SECTORS)) as usize;
    let zeros = vec![in alloc; 0u64; count]?;
    let (table, seat) = WordTable::of_words(alloc, zeros.as_slice(), g)?;
    let geometry = *g;
    Ok((Cache { table, geometry }, Keeper { seat }))
}

fn make_session(cache: &Cache, maker: &mut Keeper) -> Session
    requires { maker.old.cache ≡ cache.now.name }
    ensures stays { maker.new ≡ maker.old }
    ensures session { result ≡ seat_state cache.now.name nothing_known }
{
    Session {
        seat: cache
            .table
            .shared
            .split_seat::<MakeSession>(&mut maker.seat),
    }
}

// The keeper of the next group.
fn make_keeper(cache: &Cache, maker: &mut Keeper, group: u32) -> Keeper
    requires maker { IsMaker cache.now group maker.old }
    requires group { group < cache.now.geometry.groups }
    ensures maker { IsMaker cache.now (group + 1) maker.new }
    ensures keeper { let per = group_sectors cache.now.geometry in
        result ≡ seat_state cache.now.name (new_keeper (group * per) per) }
{
    Keeper {
        seat: cache.table.shared.split_seat::<MakeKeeper>(&mut maker.seat),
    }
}

fn make_sessions(
    alloc: Global,
    cache: &Cache,
    maker: &mut Keeper,
    count: u32,
) -> Result<Vec<Session>, NoMemory>
    requires { maker.old.cache ≡ cache.now.name }
    ensures stays { maker.new ≡ maker.old }
    ensures sessions { IfOk result (λ made. made.items ≡ replicate count (seat_state cache.now.name nothing_known)) }
{
    let mut sessions = Vec::new(alloc);
    for _session in 0..count {
        sessions.push(make_session(cache, maker))?;
    }
    Ok(sessions)
}

// One keeper for each group.
fn make_keepers(alloc: Global, cache: &Cache, maker: &mut Keeper) -> Result<Vec<Keeper>, NoMemory>
    requires { IsMaker cache.now 0 maker.old }
    ensures maker { IfOk result (λ _. IsMaker cache.now cache.now.geometry.groups maker.new) }
    ensures keepers { IfOk result (λ made. AreKeepers cache.now cache.now.geometry.groups made.items) }
{
    let mut keepers = Vec::new(alloc);
    for group in 0..cache.geometry.groups {
        keepers.push(make_keeper(cache, maker, group))?;
    }
    Ok(keepers)
}

/// A cache for the inodes of such an image, none of which is in it, with so many sessions.
///
/// The keeper that made the others is the last one: it keeps no word.
pub fn make_cache(alloc: Global, g: &Geometry, sessions: u32) -> Result<CacheParts, NoMemory>
    requires { IsGeometry g.now }
    ensures { IfOk result (λ parts. AreNewParts g.now sessions parts.cache parts.sessions.items parts.keepers.items) }
{
    let (cache, mut maker) = make_table(alloc, g)?;
    let sessions = make_sessions(alloc, &cache, &mut maker, sessions)?;
    let mut keepers = make_keepers(alloc, &cache, &mut maker)?;
    keepers.push(maker)?;
    Ok(CacheParts {
        cache,
        sessions,
        keepers,
    })
}
