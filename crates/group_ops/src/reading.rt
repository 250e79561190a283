//! Sectors that a view reads.

ghost use Rattle.std.specs.Prelude.{◌≡◌, ◌≤◌, ◌<◌, ◌+◌, ◌^◌, IsTrue, IfOk, IfErr, length};
ghost use Rattle.sound_image.specs.Places.{bytes_at};
ghost use Rattle.group_ops.specs.Loading.{IsLoadCause, IsNoDamage, Shows};

use crate::fault::LoadFault;
use disk_model::View;
use life_bytes::Sector;
use std::alloc::Global;

pub(crate) fn read_sector<V: View>(view: &mut V, at: u64) -> Result<Sector, LoadFault>
    requires { at < V.sector_count view.old }
    ensures shown { IsTrue V.known → IfOk result (λ sector. bytes_at (V.image view.old) at ≡ sector.bytes) }
    ensures no_damage { IfErr result IsNoDamage }
    ensures cause { IfErr result (IsLoadCause (V.fault_count view.old) (V.fault_count view.new)) }
    ensures only_read { V.only_read view.old view.new }
{
    let mut sector = Sector::zero();
    view.read(at, &mut sector)?;
    Ok(sector)
}

/// As many sectors as are asked for, from one on.
pub(crate) fn read_sectors<V: View>(
    alloc: Global,
    view: &mut V,
    at: u64,
    count: u64,
) -> Result<Vec<Sector>, LoadFault>
    requires within { at + count ≤ V.sector_count view.old }
    requires small { at + count < 2 ^ 64 }
    ensures shown { IsTrue V.known → IfOk result (λ sectors. Shows (V.image view.old) at sectors.items) }
    ensures many { IfOk result (λ sectors. length sectors.items ≡ count) }
    ensures no_damage { IfErr result IsNoDamage }
    ensures cause { IfErr result (IsLoadCause (V.fault_count view.old) (V.fault_count view.new)) }
    ensures only_read { V.only_read view.old view.new }
{
    let mut sectors = Vec::new(alloc);
    for index in 0..count {
        sectors.push(read_sector(view, at + index)?)?;
    }
    Ok(sectors)
}
