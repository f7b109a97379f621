//! The lines, dealt to the outputs in turn.

ghost use Rattle.std.specs.Prelude.{◌≡◌, ◌<◌, ◌++◌, ◌∷◌, [], ℕ, length, cond, ◌==◌, IfOk, OnOk, slice_index_or};
ghost use Rattle.toolbox.specs.Lines.{bytes_of, lines, written};
ghost use Rattle.toolbox.specs.Shipped.{Makes};
ghost use Rattle.toolbox.specs.Transformation.Deal.{dealt, hand, text_at, texts_of};

use crate::lines::{lines, push_line};
use outside::{Blob, Memory, ToolFault};
use std::alloc::Global;

/// So many empty texts.
fn empty_texts(alloc: Global, count: usize) -> Result<Vec<Vec<u8>>, Memory>
    ensures long { IfOk result (λ texts. length texts.items ≡ count) }
    ensures empty { IfOk result (λ texts. (k : ℕ) → text_at (texts_of texts.items) k ≡ []) }
{
    let mut texts = Vec::new(alloc);
    for _ in 0..count {
        texts.push(Vec::new(alloc))?;
    }
    Ok(texts)
}

/// Adds a line to one of the texts.
fn add(texts: &mut Vec<Vec<u8>>, place: usize, line: &[u8]) -> Result<(), Memory>
    requires { place < length texts.old.items }
    ensures long { length texts.new.items ≡ length texts.old.items }
    ensures added { OnOk result ((k : ℕ)
        → text_at (texts_of texts.new.items) k
        ≡ (cond (place == k) (text_at (texts_of texts.old.items) k ++ line.now ++ 10 ∷ [])
        (text_at (texts_of texts.old.items) k))) }
{
    push_line(&mut texts[place], line)?;
    Ok(())
}

/// Line k, from 0, goes to text `k % count`.
fn hands(alloc: Global, lines: &[&[u8]], count: usize) -> Result<Vec<Vec<u8>>, Memory>
    requires { 0 < count }
    ensures long { IfOk result (λ texts. length texts.items ≡ count) }
    ensures dealt { IfOk result (λ texts. (j : ℕ) → j < count
        → text_at (texts_of texts.items) j ≡ written (hand count j 0 (bytes_of lines.now))) }
{
    let mut texts = empty_texts(alloc, count)?;
    for (k, line) in lines.iter().enumerate() {
        add(&mut texts, k % count, line)?;
    }
    Ok(texts)
}

fn outputs(alloc: Global, texts: Vec<Vec<u8>>) -> Result<Vec<Blob>, Memory>
    ensures { IfOk result (λ outputs. outputs.items ≡ texts_of texts.items) }
{
    let mut outputs = Vec::new(alloc);
    for text in texts {
        outputs.push(Blob::new(text))?;
    }
    Ok(outputs)
}

fn dealt(alloc: Global, input: &[u8], outs: usize) -> Result<Vec<Blob>, Memory>
    requires { 0 < outs }
    ensures { IfOk result (λ outputs. dealt input.now outs ≡ Some outputs.items) }
{
    let lines = lines(alloc, input)?;
    let texts = hands(alloc, &lines, outs)?;
    let outputs = outputs(alloc, texts)?;
    Ok(outputs)
}

/// The lines in turn, one for each output; there has to be one.
pub(crate) fn make(alloc: Global, input: &[u8], outs: usize) -> Result<Vec<Blob>, ToolFault>
    ensures { Makes (dealt input.now outs) result }
{
    if outs == 0 {
        return Err(ToolFault::Declined);
    }
    Ok(dealt(alloc, input, outs)?)
}
