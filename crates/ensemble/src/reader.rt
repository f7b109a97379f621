//! The reader of whole ensembles.

ghost use Rattle.std.specs.Prelude.{◌≡◌, IfOk};
ghost use Rattle.peg_json.specs.code.ReadFault.{GivesRead};
ghost use Rattle.plan_request.specs.Request.{execute_checked};
ghost use Rattle.ensemble.specs.Limits.{IsFit};
ghost use Rattle.ensemble.specs.Reader.{GivesEnsemble, read_of, sited_of, sites_distinct};

use crate::document::Ensemble;
use crate::fault::EnsembleFault;
use crate::member_names::{check_count, check_names};
use peg_json::{FromTree, ReadFault, check_sites, parse, root};
use plan_request::Execution;
use std::alloc::Global;

/// Refuses too many execution sites, and one that is there before.
#[tactic(auto, unfolding(plan_request::specs::Request::execute_checked))]
fn check_execute(alloc: Global, execute: &[Execution]) -> Result<(), ReadFault>
    ensures { GivesRead (λ u. u) result (execute_checked execute.now) }
{
    check_sites(alloc, execute)
}

fn with_distinct_sites(alloc: Global, ensemble: Ensemble) -> Result<Ensemble, ReadFault>
    ensures { GivesRead (λ e. e) result (sites_distinct ensemble) }
{
    check_execute(alloc, ensemble.execute.as_slice())?;
    Ok(ensemble)
}

/// Reads an ensemble of at most 64 execution sites, none twice.
#[tactic(auto, unfolding(crate::specs::Reader::sited_of))]
fn read_sited(alloc: Global, bytes: &[u8]) -> Result<Ensemble, ReadFault>
    ensures { GivesRead (λ e. e) result (sited_of bytes.now) }
{
    let value = parse(alloc, bytes)?;
    let start = root(alloc)?;
    let ensemble = Ensemble::from_tree(alloc, &value, &start)?;
    let ensemble = with_distinct_sites(alloc, ensemble)?;
    Ok(ensemble)
}

/// Reads an ensemble of at most 64 members. A key that is in no table is a fault.
#[tactic(auto, unfolding(crate::specs::Reader::read_of))]
pub fn read(alloc: Global, bytes: &[u8]) -> Result<Ensemble, EnsembleFault>
    ensures answer { GivesEnsemble (λ e. e) result (read_of bytes.now) }
    ensures fit { IfOk result (λ e. IsFit e) }
{
    let ensemble = read_sited(alloc, bytes)?;
    check_count(ensemble.members.as_slice())?;
    check_names(alloc, ensemble.members.as_slice())?;
    Ok(ensemble)
}
