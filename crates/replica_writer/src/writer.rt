//! The replica catalogue of what a run delivered.

ghost use Rattle.std.specs.Prelude.{◌≡◌, ◌<◌, ◌++◌, ◌∷◌, [], length, map, IfOk, OnOk};
ghost use Rattle.hex.specs.Hex.{IsBytes};
ghost use Rattle.serde_json.specs.View.{view};
ghost use Rattle.replica_writer.specs.Writer.{AreApart, AreDigests, AreInRange, AreNamed, IsDigest, catalogue_line, catalogue_text, entries_of};
ghost use Rattle.replica_writer.specs.Law.{AreReadAs};

use crate::document::{document, entry};
use plan_core::Plan;
use serde_json::Value;
use site_yard::Delivered;
use std::alloc::Global;
use values::{Blob, Memory};

fn bytes_fit(bytes: &[u8])
    ensures { IsBytes bytes.now }
{}

/// A digest has 32 bytes.
fn digest_fits(digest: &[u8; 32])
    ensures { IsDigest digest.now }
{
    bytes_fit(digest);
}

/// Adds the entry of a delivered file, if it has its flag.
fn add_entry(
    alloc: Global,
    entries: &mut Vec<Value>,
    plan: &Plan,
    delivered: &Delivered,
) -> Result<(), Memory>
    requires { delivered.now.file.0 < length plan.now.files }
    ensures entries { OnOk result (map view entries.new.items
        ≡ map view entries.old.items ++ entries_of plan.now (delivered.now ∷ [])) }
    ensures digest { IsDigest delivered.now.digest }
{
    digest_fits(&delivered.digest);
    let file = &plan.files.as_slice()[delivered.file.0 as usize];
    if file.register {
        entries.push(entry(alloc, &file.lfn, &delivered.digest)?)?;
    }
    Ok(())
}

/// The entries of the delivered files that have their flag.
fn entries(alloc: Global, plan: &Plan, delivered: &[Delivered]) -> Result<Vec<Value>, Memory>
    requires { AreInRange plan.now delivered.now }
    ensures entries { IfOk result (λ v. map view v.items ≡ entries_of plan.now delivered.now) }
    ensures digests { IfOk result (λ v. AreDigests delivered.now) }
{
    let mut entries = Vec::new(alloc);
    for one in delivered {
        add_entry(alloc, &mut entries, plan, one)?;
    }
    Ok(entries)
}

/// The catalogue of the delivered files that have their flag, where they are.
pub fn catalogue(alloc: Global, plan: &Plan, delivered: &[Delivered]) -> Result<Blob, Memory>
    requires in_range { AreInRange plan.now delivered.now }
    requires apart { AreApart plan.now delivered.now }
    requires named { AreNamed plan.now delivered.now }
    ensures text { IfOk result (λ bytes. bytes ≡ catalogue_text plan.now delivered.now) }
    ensures reads_back { IfOk result (λ bytes. AreReadAs bytes plan.now delivered.now) }
    ensures line { IfOk result
        (λ bytes. AreReadAs (catalogue_line plan.now delivered.now) plan.now delivered.now) }
{
    let entries = entries(alloc, plan, delivered)?;
    let document = document(alloc, entries)?;
    let bytes = document.to_vec(alloc)?;
    Ok(Blob::new(bytes))
}
