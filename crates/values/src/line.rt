//! Lines of words: every text of the product is made of them.

ghost use Rattle.std.specs.Prelude.{◌≡◌, ◌++◌, OnOk, codes};
ghost use Rattle.std.specs.Fmt.{decimal};
ghost use Rattle.values.specs.code.Line.{line, printed_names, spaced_names, word_text, words_text};

use crate::memory::Memory;
use crate::printed::push_name;
use crate::text::Text;
use itoa::Buffer;

/// A word of a line.
#[derive(Clone, Copy)]
pub enum Word<'a> {
    /// As it is.
    Plain(&'a str),
    /// A name: each byte that isn't plain is a percent sign and two digits.
    Name(&'a [u8]),
    /// Names, a space between.
    Names(&'a [Text]),
    /// In decimal digits.
    Number(u64),
}

fn push_number(text: &mut Vec<u8>, number: u64) -> Result<(), Memory>
    ensures { OnOk result (text.new.items ≡ text.old.items ++ decimal number) }
{
    let mut digits = Buffer::new();
    text.extend_from_slice(digits.format(number).as_bytes())?;
    Ok(())
}

fn push_spaced(text: &mut Vec<u8>, names: &[Text]) -> Result<(), Memory>
    ensures { OnOk result (text.new.items ≡ text.old.items ++ spaced_names names.now) }
{
    for name in names {
        text.extend_from_slice(b" ")?;
        push_name(text, name.as_bytes())?;
    }
    Ok(())
}

fn push_names(text: &mut Vec<u8>, names: &[Text]) -> Result<(), Memory>
    ensures { OnOk result (text.new.items ≡ text.old.items ++ printed_names names.now) }
{
    match names {
        [] => Ok(()),
        [first, rest @ ..] => {
            push_name(text, first.as_bytes())?;
            push_spaced(text, rest)
        }
    }
}

fn push_word(text: &mut Vec<u8>, word: Word<'_>) -> Result<(), Memory>
    ensures { OnOk result (text.new.items ≡ text.old.items ++ word_text word.entry) }
{
    match word {
        Word::Plain(plain) => text.extend_from_slice(plain.as_bytes())?,
        Word::Name(name) => push_name(text, name)?,
        Word::Names(names) => push_names(text, names)?,
        Word::Number(number) => push_number(text, number)?,
    }
    Ok(())
}

/// Adds the words, a space before each.
fn push_words(text: &mut Vec<u8>, words: &[Word<'_>]) -> Result<(), Memory>
    ensures { OnOk result (text.new.items ≡ text.old.items ++ words_text words.now) }
{
    for word in words {
        text.extend_from_slice(b" ")?;
        push_word(text, *word)?;
    }
    Ok(())
}

/// Adds a line of a first word and some more, a space before each of them.
pub fn push_line(text: &mut Vec<u8>, first: &str, words: &[Word<'_>]) -> Result<(), Memory>
    ensures { OnOk result (text.new.items ≡ text.old.items ++ line first.now words.now) }
{
    text.extend_from_slice(first.as_bytes())?;
    push_words(text, words)?;
    text.extend_from_slice(b"\n")?;
    Ok(())
}
