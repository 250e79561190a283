// Links and unlinks.

ghost use Rattle.std.specs.Prelude.{◌≡◌, ◌==◌, ◌/◌, ◌<◌, ◌≤◌, ℕ, Bool, true, false, None, Some, IfOk, MatchResult};
ghost use Rattle.life_limits.specs.declared.TheConstants.{GROUP_NUMBERS, MAX_LINKS};
ghost use Rattle.geometry.specs.Places.{number_in};
ghost use Rattle.inode_core.specs.declared.shape.Core.{Core};
ghost use Rattle.life_table.specs.declared.types.Row.{Row};
ghost use Rattle.life_table.specs.declared.types.Call.TheVariants as call;
ghost use Rattle.life_table.specs.declared.table.Inode.{Inode};
ghost use Rattle.life_table.specs.declared.table.Table.{Table};
ghost use Rattle.life_table.specs.Replies.{reply_of};
ghost use Rattle.life_table.specs.Table.{with_inode};
ghost use Rattle.life_table.specs.WellFormed.{IsTable};
ghost use Rattle.sound_image.specs.Encoding.{Layouts};
ghost use Rattle.group_ops.specs.Calls.{IsLinkCause, IsUnlinkCause, Makes, relisted};
ghost use Rattle.group_ops.specs.Relinks.{Relinks, StandsFor, next_of};
ghost use Rattle.group_ops.specs.Represents.{IsGroupOf, incore_for};
ghost use Rattle.group_ops.specs.Staging.{Leads};
ghost use Rattle.group_ops.specs.Telling.{HasRowAt, HasRowOf, HoldsRow, with_links};

use crate::change::Change;
use crate::delta::{Delta, Relink};
use crate::refusals::{LinkFault, UnlinkFault};
use crate::state::{GroupState, agino_of};
use change_images::links_touch_two_places;
use encoded_changes::{encodings_follow_the_table, groups_change_alone};
use group_space::{SpaceChange, rows_leave_the_space};
use inode_cache::Incore;
use inode_core::Core;
use life_limits::MAX_LINKS;
use life_ports::NoMemory;
use life_table::{Key, tables_stay_well_formed};

impl GroupState {
    /// How pointers are set where an inode in use comes to have no links, or ceases to have none, or to be in use. `core` is the inode's before the
    /// change, and `unlinked` whether it is in use without links afterwards.
    pub(crate) fn relink(&self, agino: u32, core: &Core, unlinked: bool) -> Relink
        requires low { agino < GROUP_NUMBERS }
        requires row { HoldsRow self.now agino }
        requires core { (t : Table) (layouts : Layouts) (inode : Inode) (row : Row) → HasRowAt self.now agino t layouts inode row
            → core.now ≡ (incore_for layouts self.now.group agino inode).core }
        ensures pointers { (t : Table) (layouts : Layouts) (inode : Inode) (row : Row) → HasRowAt self.now agino t layouts inode row
            → Relinks self.now t layouts (relisted layouts self.now.group agino (row.links == 0) unlinked) agino result.head result.prior }
        ensures next { (t : Table) (layouts : Layouts) (inode : Inode) (row : Row) → HasRowAt self.now agino t layouts inode row
            → result.next ≡ next_of (relisted layouts self.now.group agino (row.links == 0) unlinked) self.now.group agino }
        ensures stands { (t : Table) (layouts : Layouts) (inode : Inode) (row : Row) → HasRowAt self.now agino t layouts inode row
            → StandsFor layouts self.now.group agino (row.links == 0) unlinked result.head result.prior }
    {
        let was_unlinked = core.links == 0;
        if was_unlinked == unlinked {
            return Relink {
                head: None,
                prior: None,
                next: core.next,
            };
        }
        if unlinked {
            return self.put_first(agino);
        }
        self.take_out(agino)
    }

    /// The change of the links of an inode in use.
    fn with_links(&self, agino: u32, links: u32) -> Result<Delta, NoMemory>
        requires low { agino < GROUP_NUMBERS }
        requires row { HoldsRow self.now agino }
        requires few { links ≤ MAX_LINKS }
        ensures { (t : Table) (layouts : Layouts) (inode : Inode) (row : Row) → HasRowAt self.now agino t layouts inode row
            → IsTable (with_inode t (number_in self.now.group agino) (with_links inode row links))
            → IfOk result (λ delta. Leads self.now delta t layouts (with_inode t (number_in self.now.group agino) (with_links inode row links))
            (relisted layouts self.now.group agino (row.links == 0) (links == 0))) }
    {
        links_touch_two_places();
        encodings_follow_the_table();
        groups_change_alone();
        rows_leave_the_space();
        self.hold();
        let Incore { core, blocks } = self.inode_at(agino)?;
        let relink = self.relink(agino, &core, links == 0);
        Ok(Delta {
            agino,
            inode: Incore {
                core: Core {
                    links,
                    next: relink.next,
                    ..core
                },
                blocks,
            },
            head: relink.head,
            prior: relink.prior,
            space: SpaceChange::none(),
            chunk: None,
        })
    }

    /// The change of a link, which is one name more.
    pub fn link(&self, key: Key) -> Result<Change, LinkFault>
        requires own { key.number / GROUP_NUMBERS ≡ self.now.group }
        requires row { HasRowOf self.now key }
        ensures { (t : Table) (layouts : Layouts) → IsGroupOf self.now t layouts
            → MatchResult result (λ change. Makes self.now change t layouts key (call.Link key)) (λ fault. IsLinkCause fault (reply_of t (call.Link key))) }
    {
        tables_stay_well_formed();
        encodings_follow_the_table();
        groups_change_alone();
        self.hold();
        let agino = agino_of(key);
        let Some(core) = self.core_at(agino) else {
            unreachable!()
        };
        if core.links == MAX_LINKS {
            return Err(LinkFault::TooManyLinks);
        }
        let delta = self.with_links(agino, core.links + 1)?;
        Ok(self.with_commit(delta)?)
    }

    /// The change of an unlink, which is one name less.
    pub fn unlink(&self, key: Key) -> Result<Change, UnlinkFault>
        requires own { key.number / GROUP_NUMBERS ≡ self.now.group }
        requires row { HasRowOf self.now key }
        ensures { (t : Table) (layouts : Layouts) → IsGroupOf self.now t layouts
            → MatchResult result (λ change. Makes self.now change t layouts key (call.Unlink key)) (λ fault. IsUnlinkCause fault (reply_of t (call.Unlink key))) }
    {
        tables_stay_well_formed();
        encodings_follow_the_table();
        groups_change_alone();
        self.hold();
        let agino = agino_of(key);
        let Some(core) = self.core_at(agino) else {
            unreachable!()
        };
        if core.links == 0 {
            return Err(UnlinkFault::NoLinks);
        }
        let delta = self.with_links(agino, core.links - 1)?;
        Ok(self.with_commit(delta)?)
    }
}
