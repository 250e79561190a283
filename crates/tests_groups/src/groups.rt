ghost use Rattle.std.specs.Prelude.{◌≡◌, false, replicate};
ghost use Rattle.life_table.specs.declared.types.Event.TheVariants.{Called};
ghost use Rattle.life_table.specs.declared.types.Reply.TheVariants.{Done};

use group_core::{
    GroupTable, Staged, begin_group, histories_lead_to_one_table, legal_events_happen_unheld,
};
use life_ports::NoMemory;
use life_table::{Call, Entry, Event, Key, Reply};
use log_record::{Commit, ImageList};
use std::alloc::Global;
use std::mem;
use std::test::Fail;

/// A group with one inode in use, of which it keeps the links alone. Each number that is in core is marked; what is changed is written at once.
#[derive(Drop)]
struct Sample {
    links: u32,
    room: u32,
    marks: [bool; 256],
}

impl Sample {
    /// One with nothing in core.
    fn with_links(links: u32) -> Sample
        ensures { result ≡ record { links = links; room = 0; marks = replicate 256 false } }
    {
        Sample {
            links,
            room: 0,
            marks: [false; 256],
        }
    }
}

/// Other links for it.
#[derive(Drop)]
struct Relink {
    from: u32,
    to: u32,
    commit: Commit,
    handed_out: bool,
    alloc: Global,
}

impl Relink {
    fn new(alloc: Global, from: u32, to: u32) -> Relink
        ensures from { result.from ≡ from }
        ensures to { result.to ≡ to }
        ensures handed_out { result.handed_out ≡ false }
    {
        let commit = Commit {
            group: 0,
            images: ImageList::new(alloc),
        };
        Relink {
            from,
            to,
            commit,
            handed_out: false,
            alloc,
        }
    }
}

impl Staged for Relink {
    ghost use Rattle.std.specs.Prelude.{◌≡◌};

    ghost commit = { λ c. c.commit };

    ghost handed_out = { λ c. c.handed_out };

    ghost hands_out = { λ before after. (before.from ≡ after.from) × (before.to ≡ after.to) };

    fn take_commit(&mut self) -> Commit {
        self.handed_out = true;
        let none = Commit {
            group: 0,
            images: ImageList::new(self.alloc),
        };
        mem::replace(&mut self.commit, none)
    }
}

impl GroupTable for Sample {
    ghost use Rattle.std.specs.Prelude.{◌≡◌, ⊤};
    ghost use Rattle.std.proofs.Common.{refl, sym, ap, ◌∙◌};
    ghost use Rattle.tests_groups.specs.Sample.{marked, sample_table};

    type Change = Relink;

    ghost group = { λ _. 0 };

    ghost table = { λ s. sample_table s.links };

    ghost room = { λ s. s.room };

    ghost takes = { λ s next u. (next.from ≡ s.links) × (u ≡ sample_table next.to) };

    ghost cached = { λ s agino. marked s.marks agino };

    ghost with_room = { λ s n. record { links = s.links; room = n; marks = s.marks } };

    ghost applied = { λ _ next after. after.links ≡ next.to };

    ghost represents = { λ _. ⊤ };

    ghost brought = { λ s _ after. after.links ≡ s.links };

    ghost flushed = { λ s after. after.links ≡ s.links };

    ghost gone = { λ s _ after. after.links ≡ s.links };

    fn reserve(&mut self) -> Result<(), NoMemory> {
        self.room = self.room.max(1);
        Ok(())
    }

    fn apply(&mut self, next: Relink) {
        self.links = next.to;
        self.room -= 1;
    }

    fn bring_in(&mut self, agino: u32) -> Result<(), NoMemory> {
        self.marks[agino as usize] = true;
        Ok(())
    }

    fn in_core(&self, from: u32) -> Option<u32> {
        for agino in from..256 {
            if self.marks[agino as usize] {
                return Some(agino);
            }
        }
        None
    }

    fn clean(&self, agino: u32) -> bool {
        self.marks[agino as usize]
    }

    fn flush(&mut self) {}

    fn let_go(&mut self, agino: u32) {
        self.marks[agino as usize] = false;
    }

    ghost has_room = { λ value n. refl };

    ghost own_room = { λ value. refl };

    ghost last_room = { λ value m n. refl };

    ghost outlives = { λ value before after u same takes. (sym same.0 ∙ takes.0, takes.1 ∙ ap sample_table same.1) };
}

/// The entry of a call that was made.
fn made(call: Call) -> Entry
    ensures { result.event ≡ Called call Done }
{
    Entry {
        actor: 0,
        event: Event::Called {
            call,
            reply: Reply::Done,
        },
    }
}

#[test]
fn a_group_keeps_its_entries_and_makes_its_changes(rt: HostRuntime) -> Result<(), Fail> {
    let mut group = begin_group(rt.alloc(), Sample::with_links(1))?;
    group.reserve()?;
    group.note(made(Call::FlushInodes { group: 0 }));
    group.reserve()?;
    let mut unlink = Relink::new(rt.alloc(), 1, 0);
    assert_eq!(rt; unlink.take_commit().group, 0);
    let key = Key {
        number: 192,
        generation: 1,
    };
    group.commit(made(Call::Unlink { key }), unlink);
    assert_eq!(rt; group.state().links, 0);
    assert_eq!(rt; group.history().len(), 2);
    assert_eq!(rt; group.into_history().len(), 2);
    let other = begin_group(rt.alloc(), Sample::with_links(3))?;
    assert_eq!(rt; other.into_state().links, 3);
    histories_lead_to_one_table();
    legal_events_happen_unheld();
    Ok(())
}

#[test]
fn a_group_brings_inodes_in_and_lets_them_go(rt: HostRuntime) -> Result<(), Fail> {
    let mut group = begin_group(rt.alloc(), Sample::with_links(1))?;
    group.bring_in(200)?;
    assert!(rt; group.in_core(0) == Some(200));
    assert!(rt; group.clean(200));
    group.flush();
    group.let_go(200);
    assert!(rt; group.in_core(0).is_none());
    Ok(())
}
