//! The request of a workload, and its catalogues of sites and transformations.

ghost use Rattle.std.specs.Prelude.{◌≡◌, ◌++◌, IfOk, OnOk};
ghost use Rattle.workload_maker.specs.Catalogues.{others_text, request_text, sites_text, some_text, transformation_text, transformations_text};

use crate::images::Images;
use crate::jobs::push_number;
use crate::pieces::{Piece, push_piece};
use std::alloc::Global;
use values::{Blob, Memory};

/// The text of the request.
pub(crate) fn request(alloc: Global, images: Images) -> Result<Blob, Memory>
    ensures { IfOk result (λ b. b ≡ request_text images.count) }
{
    let mut text = Vec::new(alloc);
    push_piece(&mut text, Piece::Request)?;
    push_number(alloc, &mut text, 162 * u64::from(images.count))?;
    push_piece(&mut text, Piece::Tools)?;
    Ok(Blob::new(text))
}

/// The text of the catalogue of sites.
pub(crate) fn site_catalog(alloc: Global) -> Result<Blob, Memory>
    ensures { IfOk result (λ b. b ≡ sites_text) }
{
    let mut text = Vec::new(alloc);
    text.extend_from_slice(b"{\"pegasus\":\"5.0\",\"sites\":[{\"name\":\"pool\"}]}")?;
    Ok(Blob::new(text))
}

/// Adds the entry of a transformation.
#[tactic(auto, unfolding(crate::specs::Catalogues::transformation_text))]
fn push_transformation(text: &mut Vec<u8>, name: &str) -> Result<(), Memory>
    ensures { OnOk result (text.new.items ≡ text.old.items ++ transformation_text name.now) }
{
    push_piece(text, Piece::Name)?;
    text.extend_from_slice(name.as_bytes())?;
    push_piece(text, Piece::Sites)?;
    text.extend_from_slice(name.as_bytes())?;
    push_piece(text, Piece::Stageable)?;
    Ok(())
}

/// The first three transformations.
#[tactic(auto, unfolding(crate::specs::Catalogues::some_text))]
fn push_some(text: &mut Vec<u8>) -> Result<(), Memory>
    ensures { OnOk result (text.new.items ≡ text.old.items ++ some_text) }
{
    push_transformation(text, "mProject")?;
    push_piece(text, Piece::Comma)?;
    push_transformation(text, "mDiffFit")?;
    push_piece(text, Piece::Comma)?;
    push_transformation(text, "mConcatFit")
}

/// The others.
#[tactic(auto, unfolding(crate::specs::Catalogues::others_text))]
fn push_others(text: &mut Vec<u8>) -> Result<(), Memory>
    ensures { OnOk result (text.new.items ≡ text.old.items ++ others_text) }
{
    push_transformation(text, "mBgModel")?;
    push_piece(text, Piece::Comma)?;
    push_transformation(text, "mBackground")?;
    push_piece(text, Piece::Comma)?;
    push_transformation(text, "mAdd")
}

/// The text of the catalogue of transformations.
pub(crate) fn transformation_catalog(alloc: Global) -> Result<Blob, Memory>
    ensures { IfOk result (λ b. b ≡ transformations_text) }
{
    let mut text = Vec::new(alloc);
    push_piece(&mut text, Piece::Transformations)?;
    push_some(&mut text)?;
    push_piece(&mut text, Piece::Comma)?;
    push_others(&mut text)?;
    push_piece(&mut text, Piece::End)?;
    Ok(Blob::new(text))
}
