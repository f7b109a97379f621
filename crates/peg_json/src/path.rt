//! Paths into a tree, as RFC 6901 writes them.

ghost use Rattle.std.specs.Prelude.{◌≡◌, ◌++◌, [], IfOk, OnOk, string_bytes};
ghost use Rattle.serde_json.specs.Find.{unescape};
ghost use Rattle.peg_json.specs.Path.{key_path, index_path, escaped};

use std::alloc::Global;
use values::{Memory, Text};

/// Adds the key, with `~0` for `~` and `~1` for `/`.
fn push_escaped(out: &mut String, key: &str) -> Result<(), Memory>
    ensures { OnOk result (string_bytes out.new ≡ string_bytes out.old ++ escaped key.now) }
{
    for c in key.chars() {
        match c {
            '~' => out.push_str("~0")?,
            '/' => out.push_str("~1")?,
            _ => out.push(c)?,
        }
    }
    Ok(())
}

/// The path of a whole document: the empty text.
pub fn root(alloc: Global) -> Result<Text, Memory>
    ensures { IfOk result (λ t. t ≡ []) }
{
    Text::copy_of(alloc, "")
}

/// The path of an object's key.
#[tactic(auto, using(crate::proofs::PathLemmas::key_back))]
pub fn at_key(alloc: Global, path: &Text, key: &str) -> Result<Text, Memory>
    ensures path { IfOk result (λ t. t ≡ key_path path.now key.now) }
    ensures reads_back { unescape (escaped key.now) ≡ key.now }
{
    let path = path.as_str();
    let room = path.len().saturating_add(key.len()).saturating_add(1);
    let mut out = String::with_capacity(alloc, room)?;
    out.push_str(path)?;
    out.push_str("/")?;
    push_escaped(&mut out, key)?;
    Ok(Text::new(out))
}

/// A text with room for the path of an element of a short list.
pub fn room_in(alloc: Global, path: &Text) -> Result<Text, Memory> {
    let room = path.as_str().len().saturating_add(4);
    Ok(Text::new(String::with_capacity(alloc, room)?))
}

/// The path of a list's element, written in place of the path of another one, so that a list asks for room once.
pub fn at_index(place: Text, path: &Text, index: usize) -> Result<Text, Memory>
    ensures { IfOk result (λ t. t ≡ index_path path.now index) }
{
    let mut out = place.into_string();
    out.clear();
    write!(out, "{}/{index}", path.as_str())?;
    Ok(Text::new(out))
}
