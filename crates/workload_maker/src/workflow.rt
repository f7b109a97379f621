//! The workflow of a workload.

ghost use Rattle.std.specs.Prelude.{◌≡◌, ◌≤◌, ◌-◌, ◌++◌, ◌∷◌, [], IfOk, OnOk, map as list_map};
ghost use Rattle.std.specs.List.{flat_map};
ghost use Rattle.workload_maker.specs.Jobs.{commas, each, followed, job_text};
ghost use Rattle.workload_maker.specs.Workflow.{add, background, bg, bg_model, concat_fit, diff_fit, fit, fits, jobs, model, mosaic, proj, project, raw, workflow_text};

use crate::images::Images;
use crate::jobs::{Named, push_job};
use crate::names::{File, FileName};
use crate::pieces::{Piece, push_piece};
use std::alloc::Global;
use values::{Blob, Memory};

/// An image as it was taken.
fn raw(number: u32) -> File
    ensures { result ≡ raw number }
{
    File {
        name: FileName::Raw(number),
        size: 16,
    }
}

/// An image after its projection.
fn proj(number: u32) -> File
    ensures { result ≡ proj number }
{
    File {
        name: FileName::Proj(number),
        size: 16,
    }
}

/// The fit of two images.
fn fit(number: u32) -> File
    ensures { result ≡ fit number }
{
    File {
        name: FileName::Fit(number),
        size: 32,
    }
}

/// An image without its background.
fn bg(number: u32) -> File
    ensures { result ≡ bg number }
{
    File {
        name: FileName::Bg(number),
        size: 81,
    }
}

/// All fits.
fn fits(images: Images) -> File
    ensures { result ≡ fits images.count }
{
    File {
        name: FileName::Fits,
        size: 32 * u64::from(images.count - 1),
    }
}

/// The model of the backgrounds.
fn model() -> File
    ensures { result ≡ model }
{
    File {
        name: FileName::Model,
        size: 65,
    }
}

/// The mosaic, which is requested.
fn mosaic(images: Images) -> File
    ensures { result ≡ mosaic images.count }
{
    File {
        name: FileName::Mosaic,
        size: 81 * u64::from(images.count),
    }
}

/// The first fits.
#[tactic(auto, using(crate::proofs::TextLemmas::files_more))]
fn all_fits(alloc: Global, count: u32) -> Result<Vec<File>, Memory>
    requires { count ≤ 3000 }
    ensures { IfOk result (λ v. v.items ≡ each count fit) }
{
    let mut files = Vec::new(alloc);
    for number in 0..count {
        files.push(fit(number))?;
    }
    Ok(files)
}

/// The first images without their backgrounds.
#[tactic(auto, using(crate::proofs::TextLemmas::files_more))]
fn all_bgs(alloc: Global, images: Images) -> Result<Vec<File>, Memory>
    ensures { IfOk result (λ v. v.items ≡ each images.count bg) }
{
    let mut files = Vec::new(alloc);
    for number in 0..images.count {
        files.push(bg(number))?;
    }
    Ok(files)
}

/// Adds the projections, a comma behind each.
#[tactic(auto, using(crate::proofs::TextLemmas::followed_more))]
fn push_projects(alloc: Global, text: &mut Vec<u8>, images: Images) -> Result<(), Memory>
    ensures { OnOk result (text.new.items ≡ text.old.items ++ flat_map followed (each images.count project)) }
{
    for number in 0..images.count {
        let named = Named {
            name: "mProject",
            number,
        };
        let inputs = [raw(number)];
        push_job(alloc, text, named, &inputs, &proj(number), false)?;
        push_piece(text, Piece::Comma)?;
    }
    Ok(())
}

/// Adds the fits, a comma behind each.
#[tactic(auto, using(crate::proofs::TextLemmas::followed_more))]
fn push_diff_fits(alloc: Global, text: &mut Vec<u8>, images: Images) -> Result<(), Memory>
    ensures { OnOk result (text.new.items ≡ text.old.items
        ++ flat_map followed (each (images.count - 1) diff_fit)) }
{
    for number in 0..images.count - 1 {
        let named = Named {
            name: "mDiffFit",
            number,
        };
        let inputs = [proj(number), proj(number + 1)];
        push_job(alloc, text, named, &inputs, &fit(number), false)?;
        push_piece(text, Piece::Comma)?;
    }
    Ok(())
}

/// What the background of an image is taken from.
fn background_inputs(number: u32) -> [File; 2]
    ensures { result ≡ proj number ∷ model ∷ [] }
{
    [proj(number), model()]
}

/// Adds the job that takes an image's background away, and a comma.
fn push_background(alloc: Global, text: &mut Vec<u8>, number: u32) -> Result<(), Memory>
    ensures { OnOk result (text.new.items ≡ text.old.items ++ followed (background number)) }
{
    let named = Named {
        name: "mBackground",
        number,
    };
    let inputs = background_inputs(number);
    push_job(alloc, text, named, &inputs, &bg(number), false)?;
    push_piece(text, Piece::Comma)?;
    Ok(())
}

/// Adds those of all images.
#[tactic(auto, using(crate::proofs::TextLemmas::followed_more))]
fn push_backgrounds(alloc: Global, text: &mut Vec<u8>, images: Images) -> Result<(), Memory>
    ensures { OnOk result (text.new.items ≡ text.old.items ++ flat_map followed (each images.count background)) }
{
    for number in 0..images.count {
        push_background(alloc, text, number)?;
    }
    Ok(())
}

/// Adds the job that joins the fits, and a comma.
fn push_concat_fit(alloc: Global, text: &mut Vec<u8>, images: Images) -> Result<(), Memory>
    ensures { OnOk result (text.new.items ≡ text.old.items ++ followed (concat_fit images.count)) }
{
    let named = Named {
        name: "mConcatFit",
        number: 0,
    };
    let inputs = all_fits(alloc, images.count - 1)?;
    push_job(alloc, text, named, inputs.as_slice(), &fits(images), false)?;
    push_piece(text, Piece::Comma)?;
    Ok(())
}

/// Adds the job that makes the model, and a comma.
fn push_bg_model(alloc: Global, text: &mut Vec<u8>, images: Images) -> Result<(), Memory>
    ensures { OnOk result (text.new.items ≡ text.old.items ++ followed (bg_model images.count)) }
{
    let named = Named {
        name: "mBgModel",
        number: 0,
    };
    let inputs = [fits(images)];
    push_job(alloc, text, named, &inputs, &model(), false)?;
    push_piece(text, Piece::Comma)?;
    Ok(())
}

/// Adds the job that makes the mosaic.
fn push_add(alloc: Global, text: &mut Vec<u8>, images: Images) -> Result<(), Memory>
    ensures { OnOk result (text.new.items ≡ text.old.items ++ job_text (add images.count)) }
{
    let named = Named {
        name: "mAdd",
        number: 0,
    };
    let inputs = all_bgs(alloc, images)?;
    let mosaic = mosaic(images);
    push_job(alloc, text, named, inputs.as_slice(), &mosaic, true)
}

/// All jobs, a comma between.
fn push_jobs(alloc: Global, text: &mut Vec<u8>, images: Images) -> Result<(), Memory>
    ensures { OnOk result (text.new.items ≡ text.old.items ++ commas (list_map job_text (jobs images.count))) }
{
    push_projects(alloc, text, images)?;
    push_diff_fits(alloc, text, images)?;
    push_concat_fit(alloc, text, images)?;
    push_bg_model(alloc, text, images)?;
    push_backgrounds(alloc, text, images)?;
    push_add(alloc, text, images)?;
    Ok(())
}

/// The text of the workflow of so many images.
pub(crate) fn workflow(alloc: Global, images: Images) -> Result<Blob, Memory>
    ensures { IfOk result (λ b. b ≡ workflow_text images.count) }
{
    let mut text = Vec::new(alloc);
    push_piece(&mut text, Piece::Workflow)?;
    push_jobs(alloc, &mut text, images)?;
    push_piece(&mut text, Piece::Dependencies)?;
    Ok(Blob::new(text))
}
