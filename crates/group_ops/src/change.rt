// A change of a group: what it makes anew of the state, and its commit.

ghost use Rattle.std.specs.Prelude.{◌≡◌, IfOk};
ghost use Rattle.life_table.specs.declared.table.Table.{Table};
ghost use Rattle.sound_image.specs.Encoding.{Layouts};
ghost use Rattle.group_ops.specs.Staging.{Leads, LeadsOn, Tells};

use crate::delta::Delta;
use crate::state::GroupState;
use group_core::Staged;
use life_ports::NoMemory;
use log_record::Commit;
use std::marker::Model;

/// A change of a group that was computed and is not made yet. It holds all memory that making it needs.
#[derive(Drop)]
pub struct Change {
    pub(crate) delta: Delta,
    /// Until it is handed out.
    pub(crate) commit: Option<Commit>,
}

impl Model for Change {
    ghost use Rattle.group_ops.specs.Staging.{ChangeValue};

    ghost Value = { ChangeValue };

    ghost view = { λ c. record { delta = c.delta; commit = c.commit } };
}

impl Staged for Change {
    ghost use Rattle.std.specs.Prelude.{◌≡◌, [], is_none, unwrap_or};
    ghost use Rattle.group_ops.specs.Staging.{handed_over};

    ghost commit = { λ c. unwrap_or c.commit (record { group = 0; images = [] }) };

    ghost handed_out = { λ c. is_none c.commit };

    ghost hands_out = { λ before after. after ≡ handed_over before };

    fn take_commit(&mut self) -> Commit {
        match self.commit.take() {
            Some(commit) => commit,
            None => unreachable!(),
        }
    }
}

impl GroupState {
    /// The change, with its commit.
    pub(crate) fn with_commit(&self, delta: Delta) -> Result<Change, NoMemory>
        requires { LeadsOn self.now delta }
        ensures { (t : Table) (layouts : Layouts) (u : Table) (others : Layouts) → Leads self.now delta t layouts u others
            → IfOk result (λ change. Tells self.now change t layouts u others) }
    {
        let commit = self.stage(&delta)?;
        Ok(Change {
            delta,
            commit: Some(commit),
        })
    }
}
