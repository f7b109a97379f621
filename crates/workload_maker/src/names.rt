//! The files of a workload.

ghost use Rattle.std.specs.Prelude.{◌≡◌, ◌<◌, ◌+◌, ◌++◌, OnOk};
ghost use Rattle.workload_maker.specs.Names.{four_digits, name_text, numbered_text};

use values::Memory;

/// A file's name: of some that are numbered, or of a single one.
#[derive(Clone, Copy)]
pub enum FileName {
    Raw(u32),
    Proj(u32),
    Fit(u32),
    Bg(u32),
    Fits,
    Model,
    Mosaic,
}

/// A file with its declared size in bytes.
#[derive(Clone, Copy)]
pub struct File {
    pub name: FileName,
    pub size: u64,
}

/// A digit as a byte.
fn digit(number: u32) -> u8
    requires { number < 10 }
    ensures { result ≡ 48 + number }
{
    b'0' + number as u8
}

/// Adds the last four digits of a number.
#[tactic(auto, unfolding(crate::specs::Names::four_digits))]
pub(crate) fn push_digits(text: &mut Vec<u8>, number: u32) -> Result<(), Memory>
    ensures { OnOk result (text.new.items ≡ text.old.items ++ four_digits number) }
{
    text.push(digit(number / 1000 % 10))?;
    text.push(digit(number / 100 % 10))?;
    text.push(digit(number / 10 % 10))?;
    text.push(digit(number % 10))?;
    Ok(())
}

/// Adds a stem, four digits and the ending.
fn push_numbered(text: &mut Vec<u8>, stem: &str, number: u32) -> Result<(), Memory>
    ensures { OnOk result (text.new.items ≡ text.old.items ++ numbered_text stem.now number) }
{
    text.extend_from_slice(stem.as_bytes())?;
    push_digits(text, number)?;
    text.extend_from_slice(b".txt")?;
    Ok(())
}

/// Adds a file's name.
#[tactic(auto, unfolding(crate::specs::Names::name_text))]
pub(crate) fn push_name(text: &mut Vec<u8>, name: FileName) -> Result<(), Memory>
    ensures { OnOk result (text.new.items ≡ text.old.items ++ name_text name) }
{
    match name {
        FileName::Raw(number) => push_numbered(text, "raw_", number),
        FileName::Proj(number) => push_numbered(text, "proj_", number),
        FileName::Fit(number) => push_numbered(text, "fit_", number),
        FileName::Bg(number) => push_numbered(text, "bg_", number),
        FileName::Fits => Ok(text.extend_from_slice(b"fits.txt")?),
        FileName::Model => Ok(text.extend_from_slice(b"model.txt")?),
        FileName::Mosaic => Ok(text.extend_from_slice(b"mosaic.txt")?),
    }
}
