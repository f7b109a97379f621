//! The shipped transformations as a tool.

ghost use Rattle.std.specs.Prelude.{◌≡◌, ◌∷◌, [], IfOk};
ghost use Rattle.toolbox.specs.Shipped.{made, output, Makes};
ghost use Rattle.toolbox.specs.Transformation.{Gives};
ghost use Rattle.toolbox.specs.Transformation.Join.{joined};

use crate::transformation::{
    Transformation, column, count, deal, digest, distinct, drop, holds, join, sorted, take, text,
    total,
};
use outside::{Blob, Memory, Text, Tool, ToolFault};
use std::alloc::Global;

/// The tool of the shipped transformations. It never fails.
#[derive(Clone, Copy, Default)]
pub struct Shipped;

impl Shipped {
    pub fn new() -> Shipped {
        Shipped
    }
}

/// Makes the one output of each transformation but the dealing one, of its inputs as one.
fn output_of(
    alloc: Global,
    transformation: Transformation,
    args: &[Text],
    ins: &[Blob],
    input: &[u8],
) -> Result<Blob, ToolFault>
    requires { input.now ≡ joined ins.now }
    ensures { Gives (output transformation args.now ins.now input.now) result }
{
    match transformation {
        Transformation::Text => text::make(alloc, args, ins),
        Transformation::Join => Ok(Blob::copy_of(alloc, input)?),
        Transformation::Take => take::make(alloc, args, input),
        Transformation::Drop => drop::make(alloc, args, input),
        Transformation::Deal => Err(ToolFault::Declined),
        Transformation::Sorted => Ok(sorted::make(alloc, input)?),
        Transformation::Distinct => Ok(distinct::make(alloc, input)?),
        Transformation::Count => Ok(count::make(alloc, input)?),
        Transformation::Holds => holds::make(alloc, args, input),
        Transformation::Column => column::make(alloc, args, input),
        Transformation::Total => total::make(alloc, input),
        Transformation::Digest => Ok(digest::make(alloc, input)?),
    }
}

/// Makes that output. A lone input isn't put together before, and several are put together once.
fn output(
    alloc: Global,
    transformation: Transformation,
    args: &[Text],
    ins: &[Blob],
) -> Result<Blob, ToolFault>
    ensures { Gives (output transformation args.now ins.now (joined ins.now)) result }
{
    if let [input] = ins {
        return output_of(alloc, transformation, args, ins, input.as_slice());
    }
    let input = join::make(alloc, ins)?;
    match transformation {
        Transformation::Join => Ok(input),
        _ => output_of(alloc, transformation, args, ins, input.as_slice()),
    }
}

fn one(alloc: Global, output: Blob) -> Result<Vec<Blob>, Memory>
    ensures { IfOk result (λ outputs. outputs.items ≡ output ∷ []) }
{
    let mut outputs = Vec::new(alloc);
    outputs.push(output)?;
    Ok(outputs)
}

/// Makes the outputs of a transformation.
fn make(
    alloc: Global,
    transformation: Transformation,
    args: &[Text],
    ins: &[Blob],
    outs: usize,
) -> Result<Vec<Blob>, ToolFault>
    ensures { Makes (made transformation args.now ins.now outs) result }
{
    match transformation {
        Transformation::Deal => {
            let input = join::make(alloc, ins)?;
            deal::make(alloc, input.as_slice(), outs)
        }
        _ if outs != 1 => Err(ToolFault::Declined),
        _ => {
            let output = output(alloc, transformation, args, ins)?;
            Ok(one(alloc, output)?)
        }
    }
}

impl Tool for Shipped {
    ghost use Rattle.toolbox.specs.Shipped.{applied, is_known};
    ghost use Rattle.toolbox.specs.AsMany.{applied_as_many};

    ghost apply = { applied };

    ghost known = { is_known };

    ghost faults = { λ _. 0 };

    ghost runs = { λ _. 0 };

    fn faults(&self) -> u64 {
        0
    }

    fn knows(&self, name: &str) -> bool {
        Transformation::from_name(name).is_some()
    }

    #[tactic(auto, unfolding(crate::specs::Shipped::applied))]
    fn run(
        &mut self,
        alloc: Global,
        name: &str,
        args: &[Text],
        ins: &[Blob],
        outs: usize,
    ) -> Result<Vec<Blob>, ToolFault> {
        match Transformation::from_name(name) {
            Some(transformation) => make(alloc, transformation, args, ins, outs),
            None => Err(ToolFault::Declined),
        }
    }

    ghost as_many = { applied_as_many };
}
