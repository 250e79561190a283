// The world.

ghost use Rattle.std.specs.Prelude.{◌≡◌, ◌≤◌, ◌*◌, IfOk, [], length, replicate};
ghost use Rattle.life_limits.specs.declared.TheConstants.{BLOCK_SECTORS, MAX_ACTORS, MAX_BLOCKS, MAX_GROUPS, MIN_BLOCKS, VERSION};
ghost use Rattle.life_table.specs.Table.{empty_table};
ghost use Rattle.log_store.specs.declared.store.Job.TheVariants as job;
ghost use Rattle.log_store.specs.State.{state_of};
ghost use Rattle.log_store.specs.Steps.{IsStore};
ghost use Rattle.actor_world.specs.Caches.{first_slot, idle_actor};
ghost use Rattle.actor_world.specs.Invariant.{Invariant, IsAtRest};
ghost use Rattle.plain_world.specs.Beginning.{first_cache, first_memory, first_world};
ghost use Rattle.plain_world.specs.Telling.{any_telling};
ghost use Rattle.plain_world.specs.Worlds.{world_of};

use actor_world::{Actor, GroupCache, Memory, Residence, Slot, Tells, mounted_worlds_are_right};
use disk_model::Disk;
use life_limits::{BLOCK_SECTORS, MAX_ACTORS};
use life_ports::NoMemory;
use life_table::{Entry, Listed, Table, tables_stay_well_formed};
use log_record::Commit;
use log_store::Store;
use plain_table::PlainTable;
use slot_words::Word;
use std::alloc::Global;

/// Nothing is told of a commit: the plain program writes no images, and its commits are empty.
pub struct AnyCommit {}

impl Tells for AnyCommit {
    ghost use Rattle.plain_world.specs.Telling.{any_telling};

    ghost tells = { any_telling };
}

/// A world of actors: its table with what happened since the mount, what is in memory, and its log.
#[derive(Drop)]
pub struct PlainWorld<D: Disk> {
    pub(crate) first_commit: u64,
    pub(crate) table: PlainTable,
    pub(crate) entries: Vec<Entry>,
    pub(crate) froms: Vec<u64>,
    pub(crate) memory: Memory,
    pub(crate) queue: Vec<Commit>,
    pub(crate) holder: Option<u32>,
    pub(crate) store: Store<D>,
}

fn idle_actors(alloc: Global) -> Result<Vec<Actor>, NoMemory>
    ensures { IfOk result (λ actors. actors.items ≡ replicate MAX_ACTORS idle_actor) }
{
    let mut actors = Vec::new(alloc);
    for _ in 0..MAX_ACTORS {
        actors.push(Actor {
            doing: None,
            queue: Listed::new(alloc),
        })?;
    }
    Ok(actors)
}

fn first_slots(alloc: Global, count: u32) -> Result<Vec<Slot>, NoMemory>
    ensures { IfOk result (λ slots. slots.items ≡ replicate count first_slot) }
{
    let word = Word {
        generation: 0,
        live: false,
        unlinked: false,
        unused: 0,
        pins: 0,
    };
    let mut slots = Vec::new(alloc);
    for _ in 0..count {
        slots.push(Slot {
            word,
            inode: Residence::Absent,
        })?;
    }
    Ok(slots)
}

fn first_caches(alloc: Global, groups: u32, blocks: u32) -> Result<Vec<GroupCache>, NoMemory>
    requires { blocks ≤ MAX_BLOCKS }
    ensures { IfOk result (λ caches. caches.items ≡ replicate groups (first_cache blocks)) }
{
    let mut caches = Vec::new(alloc);
    for _ in 0..groups {
        caches.push(GroupCache {
            slots: Listed::from_vec(first_slots(alloc, blocks * BLOCK_SECTORS)?),
            holder: None,
        })?;
    }
    Ok(caches)
}

/// A world of so many groups of so many blocks, without a chunk, in which nothing has happened. The store has nothing to
/// do.
pub fn begin_world<D: Disk>(
    alloc: Global,
    groups: u32,
    blocks: u32,
    store: Store<D>,
) -> Result<PlainWorld<D>, NoMemory>
    requires some { 1 ≤ groups }
    requires many { groups ≤ MAX_GROUPS }
    requires least { MIN_BLOCKS ≤ blocks }
    requires most { blocks ≤ MAX_BLOCKS }
    requires store { IsStore D.known D.cells D.sector_count store }
    requires list { (state_of store).list ≡ [] }
    requires job { store.job ≡ job.Idle }
    requires rest { IsAtRest (state_of store).stage }
    ensures world { IfOk result (λ w. world_of w ≡ first_world groups blocks store) }
    ensures right { IfOk result (λ w. Invariant any_telling (empty_table VERSION groups blocks) (world_of w)) }
{
    mounted_worlds_are_right::<D, AnyCommit>();
    tables_stay_well_formed();
    Ok(PlainWorld {
        first_commit: store.durable() + 1,
        table: PlainTable::new(alloc, groups, blocks)?,
        entries: Vec::new(alloc),
        froms: Vec::new(alloc),
        memory: Memory {
            actors: Listed::from_vec(idle_actors(alloc)?),
            groups: Listed::from_vec(first_caches(alloc, groups, blocks)?),
        },
        queue: Vec::new(alloc),
        holder: None,
        store,
    })
}

impl<D: Disk> PlainWorld<D> {
    /// The table now, with the holds on it.
    pub fn table(&self) -> &Table
        ensures { result.now ≡ (world_of self.now).history.table }
    {
        self.table.table()
    }

    /// What happened since the mount, in order.
    pub fn entries(&self) -> &[Entry]
        ensures { result.now ≡ (world_of self.now).history.entries }
    {
        self.entries.as_slice()
    }

    /// For each entry how many there were as its call began.
    pub fn froms(&self) -> &[u64]
        ensures { result.now ≡ (world_of self.now).history.froms }
    {
        self.froms.as_slice()
    }

    /// What is in memory.
    pub fn memory(&self) -> &Memory
        ensures { result.now ≡ (world_of self.now).memory }
    {
        &self.memory
    }

    /// The commits that no sync has taken, in order.
    pub fn queue(&self) -> &[Commit]
        ensures { result.now ≡ (world_of self.now).queue }
    {
        self.queue.as_slice()
    }
}
