//! The names of what is a member's, in the joint of all members.

ghost use Rattle.std.specs.Prelude.{◌≡◌, ◌++◌, map, IfOk, OnOk};
ghost use Rattle.ensemble.specs.Prefix.{prefixed, transformation_of};

use crate::copying::option_copied;
use std::alloc::Global;
use values::{Memory, Text};
use workflow_core::Transformation;

/// The member's name, `/` and the name.
pub fn prefixed(alloc: Global, member: &Text, name: &Text) -> Result<Text, Memory>
    ensures { IfOk result (λ t. t ≡ prefixed member.now name.now) }
{
    let mut joined = String::from_str(alloc, member.as_str())?;
    joined.push_str("/")?;
    joined.push_str(name.as_str())?;
    Ok(Text::new(joined))
}

/// Adds a member's names.
pub fn add_names(
    alloc: Global,
    names: &mut Vec<Text>,
    member: &Text,
    more: &[Text],
) -> Result<(), Memory>
    ensures { OnOk result
        (names.new.items ≡ names.old.items ++ map (prefixed member.now) more.now) }
{
    for name in more {
        names.push(prefixed(alloc, member, name)?)?;
    }
    Ok(())
}

pub fn transformation_of(
    alloc: Global,
    member: &Text,
    transformation: &Transformation,
) -> Result<Transformation, Memory>
    ensures { IfOk result (λ t. t ≡ transformation_of member.now transformation.now) }
{
    let namespace = option_copied(alloc, &transformation.namespace)?;
    let name = prefixed(alloc, member, &transformation.name)?;
    let version = option_copied(alloc, &transformation.version)?;
    Ok(Transformation {
        namespace,
        name,
        version,
    })
}
