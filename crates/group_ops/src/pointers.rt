// The unlinked buckets of a group: how an inode is put in and taken out.

ghost use Rattle.std.specs.Prelude.{◌≡◌, ◌<◌, ◌%◌, ℕ, true, false};
ghost use Rattle.life_limits.specs.declared.TheConstants.{GROUP_NUMBERS};
ghost use Rattle.life_table.specs.declared.types.Row.{Row};
ghost use Rattle.life_table.specs.declared.table.Inode.{Inode};
ghost use Rattle.life_table.specs.declared.table.Table.{Table};
ghost use Rattle.life_table.specs.Table.{group_at, inode_in};
ghost use Rattle.sound_image.specs.Encoding.{Layouts, is_unlinked};
ghost use Rattle.encoded_changes.specs.Changes.{put_in, taken_from};
ghost use Rattle.inode_cache.specs.Inodes.{incore_encoding};
ghost use Rattle.group_ops.specs.Represents.{IsGroupOf, incore_for};
ghost use Rattle.group_ops.specs.Relinks.{IsFirst, IsListedNowhere, IsTakenFrom, IsUnlinkedIn, Relinks, next_of};
ghost use Rattle.group_ops.specs.Telling.{HasRowAt};

use crate::delta::{Head, Prior, Relink};
use crate::state::GroupState;
use agi_buckets::{Nexts, put, remove};
use encoded_changes::buckets_touch_pointers;
use geometry::number;
use inode_core::{Core, write_core};
use life_limits::BUCKETS;
use sound_image::encoded_places;

impl GroupState {
    /// An inode in use as it is with another next pointer.
    fn with_next(&self, agino: u32, next: u32) -> Prior
        requires low { agino < GROUP_NUMBERS }
        requires used { (t : Table) × (layouts : Layouts) × (inode : Inode) × (row : Row) × HasRowAt self.now agino t layouts inode row }
        ensures agino { result.agino ≡ agino }
        ensures core { (t : Table) (layouts others : Layouts) (inode : Inode) (row : Row) → HasRowAt self.now agino t layouts inode row
            → next ≡ next_of others self.now.group agino → result.core ≡ (incore_for others self.now.group agino inode).core }
        ensures sector { (t : Table) (layouts others : Layouts) (inode : Inode) (row : Row) → HasRowAt self.now agino t layouts inode row
            → next ≡ next_of others self.now.group agino
            → result.sector.bytes ≡ incore_encoding self.now.group self.now.geometry.uuid agino (incore_for others self.now.group agino inode) }
    {
        encoded_places();
        self.hold();
        let Some(core) = self.core_at(agino) else {
            unreachable!()
        };
        let core = Core { next, ..core };
        let mut sector = self.sector_at(agino);
        write_core(
            &core,
            number(self.group(), agino),
            &self.geometry().uuid,
            &mut sector,
        );
        Prior {
            agino,
            core,
            sector,
        }
    }

    /// How pointers are set where an inode is put first in its bucket, in which it is not yet.
    pub(crate) fn put_first(&self, agino: u32) -> Relink
        requires low { agino < GROUP_NUMBERS }
        requires elsewhere { IsListedNowhere self.now agino }
        ensures pointers { (t : Table) (layouts : Layouts) → IsGroupOf self.now t layouts → is_unlinked (inode_in (group_at t self.now.group) agino) ≡ false
            → Relinks self.now t layouts (put_in layouts self.now.group agino) agino result.head result.prior }
        ensures next { (t : Table) (layouts : Layouts) → IsGroupOf self.now t layouts → is_unlinked (inode_in (group_at t self.now.group) agino) ≡ false
            → result.next ≡ next_of (put_in layouts self.now.group agino) self.now.group agino }
        ensures first { IsFirst result.head result.prior }
    {
        self.pointers_show_lists();
        let mut pointing = self.pointing();
        put(&mut pointing, agino);
        let bucket = agino % BUCKETS;
        Relink {
            head: Some(Head {
                bucket,
                agino: pointing.head(bucket),
            }),
            prior: None,
            next: pointing.next(agino),
        }
    }

    /// How pointers are set where an inode is taken out of its bucket. It walks the bucket up to the inode.
    pub(crate) fn take_out(&self, agino: u32) -> Relink
        requires unlinked { IsUnlinkedIn self.now agino }
        ensures pointers { (t : Table) (layouts : Layouts) → IsGroupOf self.now t layouts → is_unlinked (inode_in (group_at t self.now.group) agino) ≡ true
            → Relinks self.now t layouts (taken_from layouts self.now.group agino) agino result.head result.prior }
        ensures next { (t : Table) (layouts : Layouts) → IsGroupOf self.now t layouts → is_unlinked (inode_in (group_at t self.now.group) agino) ≡ true
            → result.next ≡ next_of (taken_from layouts self.now.group agino) self.now.group agino }
        ensures place { (t : Table) (layouts : Layouts) → IsGroupOf self.now t layouts → is_unlinked (inode_in (group_at t self.now.group) agino) ≡ true
            → IsTakenFrom layouts self.now.group agino result.head result.prior }
    {
        self.pointers_show_lists();
        buckets_touch_pointers();
        let mut pointing = self.pointing();
        let before = remove(&mut pointing, agino);
        let next = pointing.next(agino);
        let bucket = agino % BUCKETS;
        match before {
            Some(before) => Relink {
                head: None,
                prior: Some(self.with_next(before, pointing.next(before))),
                next,
            },
            None => Relink {
                head: Some(Head {
                    bucket,
                    agino: pointing.head(bucket),
                }),
                prior: None,
                next,
            },
        }
    }
}
