// The versions of all groups.
use crate::rule::VersionTable;
use std::marker::Model;

/// One version for each group, which threads share by `&`.
///
/// Contracts see its name, which no other has, and the number of groups.
#[derive(Drop)]
pub struct Versions {
    pub(crate) table: VersionTable,
}

impl Model for Versions {
    ghost use Rattle.std.specs.Prelude.{◌≡◌};
    ghost use Rattle.version_table.specs.Ends.{VersionsState};

    ghost Value = { VersionsState };

    ghost view = { λ v. record { name = v.table.shared.table_id; groups = v.table.shared.key } };

    ghost invariant = { λ v. v.table.shared.table_id.words ≡ v.table.shared.key };
}
