// The pointers of a group's unlinked buckets as a change sets them, before the change is made.

ghost use Rattle.std.specs.Prelude.{◌≡◌, ◌<◌, None};
ghost use Rattle.life_limits.specs.declared.TheConstants.{GROUP_NUMBERS};
ghost use Rattle.life_table.specs.declared.table.Table.{Table};
ghost use Rattle.sound_image.specs.Encoding.{Layouts};
ghost use Rattle.group_ops.specs.Pointers.{ShowsLists, next_at, next_through, pointers_set, room_for};
ghost use Rattle.group_ops.specs.Represents.{IsGroupOf, RepresentsGroup};

use crate::next_pointer::NextPointer;
use crate::state::GroupState;
use agi_buckets::Nexts;
use encoded_changes::places_have_their_metadata;
use extent_fork::encoded_forks_are_read;
use inode_core::encoded_cores_are_read;
use life_limits::NO_INODE;
use sound_image::encoded_places;
use std::marker::Model;

impl GroupState {
    /// A law: the pointers of a state are the lists of its layouts.
    pub(crate) fn pointers_show_lists(&self)
        ensures { (t : Table) (layouts : Layouts) → IsGroupOf self.now t layouts → ShowsLists self.now t layouts }
    {
        encoded_places();
        places_have_their_metadata();
        encoded_cores_are_read();
        encoded_forks_are_read();
        self.hold();
    }

    /// The next pointer of a number of the group. One that no chunk has points at the end mark.
    pub(crate) fn next_at(&self, agino: u32) -> u32
        requires low { agino < GROUP_NUMBERS }
        requires group { RepresentsGroup self.now }
        ensures { result ≡ next_at self.now agino }
    {
        self.pointers_show_lists();
        match self.core_at(agino) {
            Some(core) => core.next,
            None => NO_INODE,
        }
    }

    /// Its pointers, of which none is set yet.
    pub(crate) fn pointing(&self) -> Pointing<'_>
        requires { RepresentsGroup self.now }
        ensures { result ≡ record { state = self.now; heads = self.now.heads; first = None; second = None } }
    {
        Pointing {
            state: self,
            heads: self.heads(),
            first: None,
            second: None,
        }
    }
}

/// The pointers of a group, of which some are set: heads, and at most two next pointers. The state stays.
#[derive(Drop)]
pub(crate) struct Pointing<'a> {
    state: &'a GroupState,
    heads: [u32; 64],
    first: Option<NextPointer>,
    second: Option<NextPointer>,
}

impl<'a> Model for Pointing<'a> {
    ghost use Rattle.group_ops.specs.Pointers.{PointingValue, pointing_code};
    ghost use Rattle.group_ops.specs.Represents.{RepresentsGroup};

    ghost Value = { PointingValue };

    ghost coded = { pointing_code };

    ghost view = { λ p. record { state = p.state.now; heads = p.heads; first = p.first; second = p.second } };

    ghost invariant = { λ p. RepresentsGroup p.state.now };
}

/// A next pointer, where it may have been set.
fn next_through(link: Option<NextPointer>, agino: u32, next: u32) -> u32
    ensures { result ≡ next_through link agino next }
{
    match link {
        Some(link) => { if link.agino == agino { link.next } else { next } }
        None => next,
    }
}

impl<'a> Nexts for Pointing<'a> {
    ghost pointers = { λ p. pointers_set p };

    ghost room = { λ p. room_for p.first p.second };

    fn head(&self, bucket: u32) -> u32 {
        self.heads[bucket as usize]
    }

    fn set_head(&mut self, bucket: u32, agino: u32) {
        self.heads[bucket as usize] = agino;
    }

    fn next(&self, agino: u32) -> u32 {
        let next = next_through(self.first, agino, self.state.next_at(agino));
        next_through(self.second, agino, next)
    }

    fn set_next(&mut self, agino: u32, next: u32) {
        let link = Some(NextPointer { agino, next });
        if self.first.is_none() {
            self.first = link;
        } else {
            self.second = link;
        }
    }
}
