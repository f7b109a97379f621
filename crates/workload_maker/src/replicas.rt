//! The replicas of a workload.

ghost use Rattle.std.specs.Prelude.{◌≡◌, ◌≤◌, ◌<◌, ◌-◌, ◌++◌, ℕ, IfOk, OnOk};
ghost use Rattle.std.specs.List.{flat_map};
ghost use Rattle.workload_maker.specs.Jobs.{commas, each, with_comma};
ghost use Rattle.workload_maker.specs.Replicas.{image_of, image_text, pfn_text, replica_text, replicas_text};

use crate::images::Images;
use crate::names::{FileName, push_digits, push_name};
use crate::pieces::{Piece, push_piece};
use std::alloc::Global;
use values::{Blob, Memory, Text};

/// Adds the entry of an image.
#[tactic(auto, unfolding(crate::specs::Replicas::replica_text))]
fn push_replica(text: &mut Vec<u8>, number: u32) -> Result<(), Memory>
    ensures { OnOk result (text.new.items ≡ text.old.items ++ replica_text number) }
{
    let raw = FileName::Raw(number);
    push_piece(text, Piece::Lfn)?;
    push_name(text, raw)?;
    push_piece(text, Piece::Pfns)?;
    push_name(text, raw)?;
    push_piece(text, Piece::EndPfns)?;
    Ok(())
}

/// Adds the entries of the first images, a comma behind each.
#[tactic(auto, using(crate::proofs::TextLemmas::texts_more))]
fn push_replicas(text: &mut Vec<u8>, count: u32) -> Result<(), Memory>
    requires { count ≤ 3000 }
    ensures { OnOk result (text.new.items ≡ text.old.items ++ flat_map with_comma (each count replica_text)) }
{
    for number in 0..count {
        push_replica(text, number)?;
        push_piece(text, Piece::Comma)?;
    }
    Ok(())
}

/// Adds the entries of all images, a comma between.
fn push_all(text: &mut Vec<u8>, images: Images) -> Result<(), Memory>
    ensures { OnOk result (text.new.items ≡ text.old.items ++ commas (each images.count replica_text)) }
{
    push_replicas(text, images.count - 1)?;
    push_replica(text, images.count - 1)?;
    Ok(())
}

/// The text of the catalogue of replicas.
pub(crate) fn replica_catalog(alloc: Global, images: Images) -> Result<Blob, Memory>
    ensures { IfOk result (λ b. b ≡ replicas_text images.count) }
{
    let mut text = Vec::new(alloc);
    push_piece(&mut text, Piece::Replicas)?;
    push_all(&mut text, images)?;
    push_piece(&mut text, Piece::End)?;
    Ok(Blob::new(text))
}

/// The pfn of an image.
fn pfn(alloc: Global, number: u32) -> Result<Text, Memory>
    ensures { IfOk result (λ t. t ≡ pfn_text number) }
{
    let mut name = Vec::new(alloc);
    name.extend_from_slice(b"mem:")?;
    push_name(&mut name, FileName::Raw(number))?;
    match String::from_utf8(name) {
        Ok(name) => Ok(Text::new(name)),
        Err(_) => Err(Memory),
    }
}

/// The bytes of an image.
fn image(alloc: Global, number: u32) -> Result<Blob, Memory>
    ensures { IfOk result (λ b. b ≡ image_text number) }
{
    let mut bytes = Vec::new(alloc);
    bytes.extend_from_slice(b"image ")?;
    push_digits(&mut bytes, number)?;
    bytes.extend_from_slice(b"\n")?;
    Ok(Blob::new(bytes))
}

/// The images by their pfns.
#[tactic(auto, using(crate::proofs::TextLemmas::images_more))]
pub(crate) fn image_replicas(alloc: Global, wanted: Images) -> Result<Vec<(Text, Blob)>, Memory>
    ensures { IfOk result (λ v. v.items ≡ each wanted.count image_of) }
{
    let mut images = Vec::new(alloc);
    for number in 0..wanted.count {
        images.push((pfn(alloc, number)?, image(alloc, number)?))?;
    }
    Ok(images)
}
