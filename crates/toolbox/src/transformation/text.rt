//! The arguments as a line.

ghost use Rattle.std.specs.Prelude.{◌≡◌, ◌++◌, ◌∷◌, [], IfOk, OnOk};
ghost use Rattle.toolbox.specs.Transformation.{Gives};
ghost use Rattle.toolbox.specs.Transformation.Text.{sentence, spaced, text};

use outside::{Blob, Memory, Text, ToolFault};
use std::alloc::Global;

fn push_spaced(line: &mut Vec<u8>, words: &[Text]) -> Result<(), Memory>
    ensures { OnOk result (line.new.items ≡ line.old.items ++ spaced words.now) }
{
    for word in words {
        line.push(b' ')?;
        line.extend_from_slice(word.as_bytes())?;
    }
    Ok(())
}

/// The words with one space between, and the end of the line.
fn line_of(alloc: Global, words: &[Text]) -> Result<Blob, Memory>
    ensures { IfOk result (λ b. b ≡ sentence words.now ++ 10 ∷ []) }
{
    let mut line = Vec::new(alloc);
    if let [first, rest @ ..] = words {
        line.extend_from_slice(first.as_bytes())?;
        push_spaced(&mut line, rest)?;
    }
    line.push(b'\n')?;
    Ok(Blob::new(line))
}

/// The arguments as a line, where there is no input.
pub(crate) fn make(alloc: Global, args: &[Text], ins: &[Blob]) -> Result<Blob, ToolFault>
    ensures { Gives (text args.now ins.now) result }
{
    if !ins.is_empty() {
        return Err(ToolFault::Declined);
    }
    Ok(line_of(alloc, args)?)
}
