//! The ids of a vtree file.

ghost use Rattle.std.specs.Prelude.{◌≡◌, ◌≤◌, length, Ok, IfOk, IfErr};
ghost use Rattle.std.specs.FinMap.{get};
ghost use Rattle.sd_vfile.specs.Ids.{ids_of, ArePositions, HasPlaces};
ghost use Rattle.sd_vfile.specs.Reads.{Fails, vtree_file};

use crate::fault::VtreeFault;
use crate::placing::{Place, places_of};
use crate::reader::read_whole;
use std::alloc::Global;
use std::collections::BTreeMap;
use std::marker::Model;

/// The positions of the nodes of a vtree file, by the ids of their lines. Contracts see it as a finite map.
#[derive(Drop)]
pub struct Ids {
    places: BTreeMap<u64, Place>,
}

impl Model for Ids {
    ghost use Rattle.std.specs.Prelude.{ℕ};
    ghost use Rattle.std.specs.Coded.{coded_ℕ};
    ghost use Rattle.std.specs.FinMap.{FinMap, code};
    ghost use Rattle.std.specs.Ordering.{nat_cmp};
    ghost use Rattle.sd_vfile.specs.Placing.{positions_of};

    ghost Value = { FinMap nat_cmp ℕ };

    ghost coded = { code coded_ℕ coded_ℕ };

    ghost view = { λ ids. positions_of ids.places };
}

impl Ids {
    /// The position of the node whose line has the id, or None where no node line has it. It takes no memory.
    #[tactic(auto, using(crate::proofs::IdPlaces::position_at))]
    pub fn position(&self, id: u64) -> Option<u32>
        ensures { result ≡ get self.now id }
    {
        let place = self.places.get(&id)?;
        Some(place.position)
    }
}

/// The ids of a text that stands for a vtree over the variables 1 to `variables`, each with the position
/// of its node in that vtree, or the text's first fault.
///
/// It asks for what `read_vtree` asks for, and refuses as it does.
pub fn read_ids(alloc: Global, bytes: &[u8], variables: u32) -> Result<Ids, VtreeFault>
    requires at_least_one { 1 ≤ variables }
    requires within_limit { variables ≤ 1024 }
    requires fits { length bytes.now ≤ 67108864 }
    ensures ok { IfOk result (λ ids. ids_of variables bytes.now ≡ Ok ids) }
    ensures fault { IfErr result (λ e. Fails e (vtree_file variables bytes.now)) }
    ensures places { IfOk result (HasPlaces variables bytes.now) }
    ensures positions { IfOk result (ArePositions variables) }
{
    let whole = read_whole(alloc, bytes, variables)?;
    let places = places_of(alloc, &whole.forms, &whole.tree)?;
    Ok(Ids { places })
}
