// The versions of two groups.
ghost use Rattle.std.specs.Prelude.{◌≡◌, [], IfOk};
ghost use Rattle.version_table.specs.Story.{known_of};

use life_ports::NoMemory;
use life_table::{Call, Entry, Event, Reply};
use std::alloc::Global;
use std::test::Fail;
use version_table::{
    Reader, VersionKeeper, VersionParts, Versions, each_entry_has_one_owner, make_versions,
    no_sight_is_ahead,
};

/// The versions of two groups, the keeper of the second one, and two readers.
#[derive(Drop)]
struct Parts {
    versions: Versions,
    keeper: VersionKeeper,
    reader: Reader,
    other: Reader,
}

fn new_parts(alloc: Global) -> Result<Parts, NoMemory>
    ensures groups { IfOk result (λ p. p.versions.groups ≡ 2) }
    ensures keeper { IfOk result (λ p. (p.keeper.versions ≡ p.versions.name) × (p.keeper.group ≡ 1)) }
    ensures new { IfOk result (λ p. known_of 1 p.keeper.story.lines ≡ []) }
    ensures reader { IfOk result (λ p. (p.reader.versions ≡ p.versions.name) × (p.reader.groups ≡ 2)) }
    ensures other { IfOk result (λ p. (p.other.versions ≡ p.versions.name) × (p.other.groups ≡ 2)) }
{
    let parts = make_versions(alloc, 2, 2)?;
    let VersionParts {
        versions,
        mut readers,
        mut keepers,
    } = parts;
    Ok(Parts {
        versions,
        keeper: keepers.remove(1),
        reader: readers.remove(0),
        other: readers.remove(0),
    })
}

fn entry(actor: u32) -> Entry {
    let call = Call::FlushInodes { group: 1 };
    let reply = Reply::Done;
    Entry {
        actor,
        event: Event::Called { call, reply },
    }
}

#[test]
fn entries_are_counted_and_seen(rt: HostRuntime) -> Result<(), Fail> {
    let Parts {
        versions,
        mut keeper,
        mut reader,
        mut other,
    } = new_parts(rt.alloc())?;
    assert_eq!(rt; keeper.length(), 0);
    assert_eq!(rt; reader.load(&versions, 1), 0);
    keeper.enter(&versions, &mut reader, &entry(0));
    keeper.enter(&versions, &mut reader, &entry(26));
    assert_eq!(rt; keeper.length(), 2);
    assert_eq!(rt; reader.seen(1), 2);
    assert_eq!(rt; reader.seen(0), 0);
    assert_eq!(rt; other.seen(1), 0);
    assert_eq!(rt; other.load(&versions, 1), 2);
    assert_eq!(rt; other.seen(1), 2);
    no_sight_is_ahead();
    each_entry_has_one_owner();
    Ok(())
}
