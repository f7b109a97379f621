//! The jobs of a workload.

ghost use Rattle.std.specs.Prelude.{◌≡◌, ◌<◌, ◌++◌, OnOk};
ghost use Rattle.std.specs.Fmt.{decimal};
ghost use Rattle.std.specs.List.{flat_map};
ghost use Rattle.workload_maker.specs.Jobs.{flag, head_text, input_followed, input_text, job_text, output_text};
ghost use Rattle.workload_maker.specs.Jobs.{job};

use crate::names::{File, push_digits, push_name};
use crate::pieces::{Piece, push_piece};
use std::alloc::Global;
use values::Memory;

/// Adds a number in decimal digits.
pub(crate) fn push_number(alloc: Global, text: &mut Vec<u8>, number: u64) -> Result<(), Memory>
    ensures { OnOk result (text.new.items ≡ text.old.items ++ decimal number) }
{
    let digits = format!(in alloc; "{number}")?;
    text.extend_from_slice(digits.as_bytes())?;
    Ok(())
}

/// Adds `true` or `false`.
fn push_flag(text: &mut Vec<u8>, on: bool) -> Result<(), Memory>
    ensures { OnOk result (text.new.items ≡ text.old.items ++ flag on) }
{
    if on {
        text.extend_from_slice(b"true")?;
    } else {
        text.extend_from_slice(b"false")?;
    }
    Ok(())
}

/// Adds a use that a job reads.
#[tactic(auto, unfolding(crate::specs::Jobs::input_text))]
fn push_input(alloc: Global, text: &mut Vec<u8>, file: &File) -> Result<(), Memory>
    ensures { OnOk result (text.new.items ≡ text.old.items ++ input_text file.now) }
{
    push_piece(text, Piece::Lfn)?;
    push_name(text, file.name)?;
    push_piece(text, Piece::Input)?;
    push_number(alloc, text, file.size)?;
    push_piece(text, Piece::Close)?;
    Ok(())
}

/// Adds the use that a job makes.
#[tactic(auto, unfolding(crate::specs::Jobs::output_text))]
fn push_output(
    alloc: Global,
    text: &mut Vec<u8>,
    file: &File,
    requested: bool,
) -> Result<(), Memory>
    ensures { OnOk result (text.new.items ≡ text.old.items ++ output_text file.now requested) }
{
    push_piece(text, Piece::Lfn)?;
    push_name(text, file.name)?;
    push_piece(text, Piece::Output)?;
    push_flag(text, requested)?;
    push_piece(text, Piece::Register)?;
    push_flag(text, requested)?;
    push_piece(text, Piece::Size)?;
    push_number(alloc, text, file.size)?;
    push_piece(text, Piece::Close)?;
    Ok(())
}

/// Adds the uses that a job reads, a comma behind each.
fn push_inputs(alloc: Global, text: &mut Vec<u8>, inputs: &[File]) -> Result<(), Memory>
    ensures { OnOk result (text.new.items ≡ text.old.items ++ flat_map input_followed inputs.now) }
{
    for file in inputs {
        push_input(alloc, text, file)?;
        push_piece(text, Piece::Comma)?;
    }
    Ok(())
}

/// A job's transformation and number, which make its id.
#[derive(Clone, Copy)]
pub(crate) struct Named {
    pub(crate) name: &'static str,
    pub(crate) number: u32,
}

/// Adds a job up to its uses.
fn push_head(text: &mut Vec<u8>, named: Named) -> Result<(), Memory>
    ensures { OnOk result (text.new.items ≡ text.old.items ++ head_text named.name.now named.number) }
{
    push_piece(text, Piece::Job)?;
    text.extend_from_slice(named.name.as_bytes())?;
    push_piece(text, Piece::Id)?;
    text.extend_from_slice(named.name.as_bytes())?;
    push_piece(text, Piece::Under)?;
    push_digits(text, named.number)?;
    push_piece(text, Piece::Uses)?;
    Ok(())
}

/// Adds a job of the workflow.
#[tactic(auto, unfolding(crate::specs::Jobs::job_text))]
pub(crate) fn push_job(
    alloc: Global,
    text: &mut Vec<u8>,
    named: Named,
    inputs: &[File],
    output: &File,
    requested: bool,
) -> Result<(), Memory>
    ensures { OnOk result (text.new.items ≡ text.old.items
        ++ job_text (job named.name.now named.number inputs.now output.now requested)) }
{
    push_head(text, named)?;
    push_inputs(alloc, text, inputs)?;
    push_output(alloc, text, output, requested)?;
    push_piece(text, Piece::End)?;
    Ok(())
}
