//! The figures of a rehearsal, and its summary.

ghost use Rattle.std.specs.Prelude.{◌≡◌, ◌++◌, IfOk, OnOk};
ghost use Rattle.rehearsal.specs.Summary.{figure_lines, mosaic_line, number_line, summary_text};

use hex::encode;
use outside::{Memory, Word, push_line};
use sha2::{Digest, Sha256};
use std::alloc::Global;

/// The figures of a rehearsal that don't hang on who worked when.
#[derive(Clone, Copy)]
pub struct Figures {
    pub jobs: u64,
    pub tasks: u64,
    pub bound: u64,
    pub peak: u64,
}

/// Adds a line of a word and a number.
fn push_number(text: &mut Vec<u8>, word: &str, number: u64) -> Result<(), Memory>
    ensures { OnOk result (text.new.items ≡ text.old.items ++ number_line word.now number) }
{
    push_line(text, word, &[Word::Number(number)])
}

/// Adds a line for each figure.
fn push_figures(text: &mut Vec<u8>, figures: &Figures) -> Result<(), Memory>
    ensures { OnOk result (text.new.items ≡ text.old.items ++ figure_lines figures.now) }
{
    push_number(text, "jobs", figures.jobs)?;
    push_number(text, "tasks", figures.tasks)?;
    push_number(text, "bound", figures.bound)?;
    push_number(text, "peak", figures.peak)
}

/// Adds the line of the mosaic.
fn push_mosaic(alloc: Global, text: &mut Vec<u8>, mosaic: &[u8]) -> Result<(), Memory>
    ensures { OnOk result (text.new.items ≡ text.old.items ++ mosaic_line mosaic.now) }
{
    let digest = Sha256::digest(mosaic);
    let digits = encode(alloc, digest.as_slice())?;
    let length = Word::Number(mosaic.len() as u64);
    let digits = Word::Plain(digits.as_str());
    push_line(text, "delivered mosaic.txt", &[length, digits])
}

/// The summary of a rehearsal of so many images: its figures, and what it delivered.
pub fn summary(
    alloc: Global,
    images: u32,
    figures: &Figures,
    mosaic: &[u8],
) -> Result<Vec<u8>, Memory>
    ensures { IfOk result (λ text. text.items ≡ summary_text images figures.now mosaic.now) }
{
    let mut text = Vec::new(alloc);
    push_number(&mut text, "images", u64::from(images))?;
    push_figures(&mut text, figures)?;
    push_mosaic(alloc, &mut text, mosaic)?;
    Ok(text)
}
