//! The words of a line: its parts between its spaces.

ghost use Rattle.std.specs.Prelude.{◌≡◌, ◌∷◌, drop};
ghost use Rattle.std.specs.Option.{option_copied};
ghost use Rattle.run_record.specs.code.Words.{word_at, words_in, words_of};

/// The first word, and what follows its space.
pub fn first_word(text: &str) -> (&str, Option<&str>)
    ensures { words_of text.now ≡ result.0.now ∷ words_in (option_copied result.1) }
{
    match text.split_once(' ') {
        Some((word, rest)) => (word, Some(rest)),
        None => (text, None),
    }
}

/// What follows some words and their spaces.
pub fn skip_words(text: &str, count: usize) -> Option<&str>
    ensures { words_in (option_copied result) ≡ drop count (words_of text.now) }
{
    let mut rest = Some(text);
    for _ in 0..count {
        let Some(text) = rest else {
            return None;
        };
        (_, rest) = first_word(text);
    }
    rest
}

/// The word at a place, and none past the end.
pub fn word(text: &str, place: usize) -> &str
    ensures { result.now ≡ word_at (words_of text.now) place }
{
    match skip_words(text, place) {
        Some(rest) => first_word(rest).0,
        None => "",
    }
}
