// The making of the versions.
ghost use Rattle.std.specs.Prelude.{◌≡◌, ◌+◌, ◌<◌, ◌≤◌, ℕ, IfOk, replicate};
ghost use Rattle.version_table.specs.Ends.{AreVersionKeepers, AreNewVersions, IsMaker, new_keeper_state, new_reader};

use crate::keeper::VersionKeeper;
use crate::reader::Reader;
use crate::rule::{MakeKeeper, MakeReader, VersionSeat, VersionTable};
use crate::versions::Versions;
use life_ports::NoMemory;
use std::alloc::Global;

/// New versions, and all who step on them.
#[derive(Drop)]
pub struct VersionParts {
    pub versions: Versions,
    pub readers: Vec<Reader>,
    /// One keeper a group, in the order of the groups.
    pub keepers: Vec<VersionKeeper>,
}

// Versions of empty histories, and who makes their readers and keepers.
fn make_table(alloc: Global, groups: u32) -> Result<(Versions, VersionSeat), NoMemory>
    ensures groups { IfOk result (λ made. made.0.groups ≡ groups) }
    ensures maker { IfOk result (λ made. IsMaker made.0 0 made.1.table_id made.1.me) }
{
    let count = u64::from(groups);
    let zeros = vec![in alloc; 0u64; groups as usize]?;
    let (table, seat) = VersionTable::of_words(alloc, zeros.as_slice(), &count)?;
    Ok((Versions { table }, seat))
}

fn make_reader(
    alloc: Global,
    versions: &Versions,
    maker: &mut VersionSeat,
    groups: u32,
) -> Result<Reader, NoMemory>
    requires maker { maker.old.table_id ≡ versions.now.name }
    requires groups { groups ≡ versions.now.groups }
    requires some { 0 < groups }
    ensures stays { (maker.new.table_id ≡ maker.old.table_id) × (maker.new.me ≡ maker.old.me) }
    ensures reader { IfOk result (λ reader. reader ≡ new_reader versions.now) }
{
    let seen = vec![in alloc; 0u64; groups as usize]?;
    let seat = versions.table.shared.split_seat::<MakeReader>(maker);
    Ok(Reader { seat, seen })
}

// The keeper of the next group.
fn make_keeper(versions: &Versions, maker: &mut VersionSeat, group: u32) -> VersionKeeper
    requires maker { IsMaker versions.now group maker.old.table_id maker.old.me }
    requires group { group < versions.now.groups }
    ensures maker { IsMaker versions.now (group + 1) maker.new.table_id maker.new.me }
    ensures keeper { result ≡ new_keeper_state versions.now group }
{
    VersionKeeper {
        seat: versions.table.shared.split_seat::<MakeKeeper>(maker),
        group,
        length: 0,
    }
}

fn make_readers(
    alloc: Global,
    versions: &Versions,
    maker: &mut VersionSeat,
    groups: u32,
    count: u32,
) -> Result<Vec<Reader>, NoMemory>
    requires maker { maker.old.table_id ≡ versions.now.name }
    requires groups { groups ≡ versions.now.groups }
    requires some { 0 < groups }
    ensures stays { (maker.new.table_id ≡ maker.old.table_id) × (maker.new.me ≡ maker.old.me) }
    ensures readers { IfOk result (λ made. made.items ≡ replicate count (new_reader versions.now)) }
{
    let mut readers = Vec::new(alloc);
    for _reader in 0..count {
        let reader = make_reader(alloc, versions, maker, groups)?;
        readers.push(reader)?;
    }
    Ok(readers)
}

// One keeper for each group.
fn make_keepers(
    alloc: Global,
    versions: &Versions,
    maker: &mut VersionSeat,
    groups: u32,
) -> Result<Vec<VersionKeeper>, NoMemory>
    requires maker { IsMaker versions.now 0 maker.old.table_id maker.old.me }
    requires groups { groups ≡ versions.now.groups }
    ensures { IfOk result (λ made. AreVersionKeepers versions.now groups made.items) }
{
    let mut keepers = Vec::new(alloc);
    for group in 0..groups {
        keepers.push(make_keeper(versions, maker, group))?;
    }
    Ok(keepers)
}

/// Versions of so many empty histories, with so many readers, and one keeper for each history.
pub fn make_versions(alloc: Global, groups: u32, readers: u32) -> Result<VersionParts, NoMemory>
    requires { 0 < groups }
    ensures { IfOk result (λ parts. AreNewVersions groups readers parts.versions parts.readers.items parts.keepers.items) }
{
    let (versions, mut maker) = make_table(alloc, groups)?;
    let readers = make_readers(alloc, &versions, &mut maker, groups, readers)?;
    let keepers = make_keepers(alloc, &versions, &mut maker, groups)?;
    Ok(VersionParts {
        versions,
        readers,
        keepers,
    })
}
