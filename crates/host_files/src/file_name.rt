//! Names of files as parts of a path.

ghost use Rattle.std.specs.Prelude.{◌≡◌, ◌++◌, IfOk, OnOk, string_bytes};
ghost use Rattle.host_files.specs.FileName.{escaped, escaped_text, path_in};

use outside::Memory;
use std::alloc::Global;

fn push_text(path: &mut String, text: &str) -> Result<(), Memory>
    ensures { OnOk result (string_bytes path.new ≡ string_bytes path.old ++ escaped_text text.now) }
{
    for c in text.chars() {
        match c {
            '%' => path.push_str("%25")?,
            '/' => path.push_str("%2F")?,
            _ => path.push(c)?,
        }
    }
    Ok(())
}

fn push_escaped(path: &mut String, name: &str) -> Result<(), Memory>
    ensures { OnOk result (string_bytes path.new ≡ string_bytes path.old ++ escaped name.now) }
{
    match name.strip_prefix('.') {
        Some(rest) => {
            path.push_str("%2E")?;
            push_text(path, rest)
        }
        None => push_text(path, name),
    }
}

/// The path of a name in a folder, with `%25` for `%`, `%2F` for `/` and `%2E` for a `.` at the name's beginning.
pub fn path_in(alloc: Global, folder: &str, name: &str) -> Result<String, Memory>
    ensures { IfOk result (λ path. string_bytes path ≡ path_in folder.now name.now) }
{
    let mut path = String::from_str(alloc, folder)?;
    path.push_str("/")?;
    push_escaped(&mut path, name)?;
    Ok(path)
}
