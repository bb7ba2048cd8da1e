//! The core as a value that a lock guards.

use crate::Core;
use blsm_model::Stands;
use disk_trait::Disk;

impl<D: Disk + Drop> Stands for Core<D> {
    ghost use Rattle.blsm_model.specs.Geometry.{high_mark};
    ghost use Rattle.tree_core.specs.Core.{facts_of_held};
    ghost use Rattle.tree_core.specs.Calls.{CameSince, MadeBy};

    ghost facts = { λ c. facts_of_held c.held };

    ghost stands = { λ start now. CameSince D.state start now };

    ghost one = { λ seat old now. MadeBy D.state seat old now };

    ghost most = { λ start. high_mark start.held.runs.sizes };

    fn entries(&self) -> u64 {
        self.held.book.entries()
    }

    fn peak(&self) -> u64 {
        self.held.book.peak()
    }

    ghost within = { λ start now came. came.since.peak };
}
