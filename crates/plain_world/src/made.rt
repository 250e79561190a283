// A step that was found is made.

ghost use Rattle.std.specs.Prelude.{◌≡◌, OnErr, OnOk};
ghost use Rattle.plain_world.specs.Happenings.{MayHappen, MayHappenIf};
ghost use Rattle.plain_world.specs.Worlds.{after_move, world_of, with_event};

use crate::happen::{happen, is_change};
use crate::world::PlainWorld;
use disk_model::Disk;
use life_ports::NoMemory;
use life_table::{Entry, Event};
use log_record::{Commit, ImageList};
use plain_moves::Moved;
use std::alloc::Global;

impl<D: Disk> PlainWorld<D> {
    /// Tells what happened by an actor, in a call that began at this entry.
    fn tell(&mut self, alloc: Global, a: u32, from: u64, event: Event) -> Result<(), NoMemory>
        requires { MayHappen self.old.table event }
        ensures ok { OnOk result (world_of self.new ≡ with_event a from event (world_of self.old)) }
        ensures err { OnErr result (world_of self.new ≡ world_of self.old) }
    {
        self.entries.reserve(1)?;
        self.froms.reserve(1)?;
        self.queue.reserve(1)?;
        happen(alloc, &mut self.table, &event)?;
        if is_change(&event) {
            self.queue.push_reserved(Commit {
                group: 0,
                images: ImageList::new(alloc),
            });
        }
        self.entries.push_reserved(Entry { actor: a, event });
        self.froms.push_reserved(from);
        Ok(())
    }

    /// Makes a step that comes to this.
    pub(crate) fn make(
        &mut self,
        alloc: Global,
        a: u32,
        from: u64,
        moved: Moved,
    ) -> Result<(), NoMemory>
        requires { MayHappenIf self.old.table moved.event }
        ensures ok { OnOk result (world_of self.new ≡ after_move a from moved (world_of self.old)) }
        ensures err { OnErr result (world_of self.new ≡ world_of self.old) }
    {
        let (event, memory) = moved.into_parts();
        if let Some(event) = event {
            self.tell(alloc, a, from, event)?;
        }
        self.memory = memory;
        Ok(())
    }
}
