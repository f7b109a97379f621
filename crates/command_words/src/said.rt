//! What the words of a call say, before it is known whether they are a command.

ghost use Rattle.std.specs.Prelude.{◌≡◌, Some, true, map as list_map, option_map, string_bytes};
ghost use Rattle.command_words.specs.Words.{apart as of_apart, is_name as names, joined_option as of_joined, one_more as of_one, said_in, three_more as of_three, two_more as of_two};
ghost use Rattle.command_words.specs.code.Words.{keeps_the_rule as of_rule, said_of};

/// A command's word, one or two words more, and the digits of the option for workers.
#[derive(Clone, Copy)]
pub(crate) enum Said<'a> {
    /// A word and one more.
    One(&'a str, &'a str),
    /// A word and two more.
    Two(&'a str, &'a str, &'a str),
    /// A word, one more, and digits.
    WithWorkers(&'a str, &'a str, &'a [u8]),
}

fn is_name(word: &str) -> bool
    ensures { result ≡ names word.now }
{
    match word.as_bytes() {
        [] => false,
        [first, ..] => *first != b'-',
    }
}

fn joined<'a>(word: &'a str, name: &'a str, option: &'a str) -> Option<Said<'a>>
    ensures { option_map said_of result ≡ of_joined word.now name.now option.now }
{
    if !is_name(name) {
        return None;
    }
    match option.as_bytes().strip_prefix(b"--workers=".as_slice()) {
        Some(digits) => Some(Said::WithWorkers(word, name, digits)),
        None => None,
    }
}

fn apart<'a>(word: &'a str, name: &'a str, option: &str, digits: &'a str) -> Option<Said<'a>>
    ensures { option_map said_of result ≡ of_apart word.now name.now option.now digits.now }
{
    if is_name(name) && option == "--workers" {
        Some(Said::WithWorkers(word, name, digits.as_bytes()))
    } else {
        None
    }
}

fn one_more<'a>(word: &'a str, a: &'a str) -> Option<Said<'a>>
    ensures { option_map said_of result ≡ of_one word.now a.now }
{
    if is_name(a) {
        Some(Said::One(word, a))
    } else {
        None
    }
}

fn two_more<'a>(word: &'a str, a: &'a str, b: &'a str) -> Option<Said<'a>>
    ensures { option_map said_of result ≡ of_two word.now a.now b.now }
{
    if is_name(a) {
        if is_name(b) {
            Some(Said::Two(word, a, b))
        } else {
            joined(word, a, b)
        }
    } else {
        joined(word, b, a)
    }
}

fn three_more<'a>(word: &'a str, a: &'a str, b: &'a str, c: &'a str) -> Option<Said<'a>>
    ensures { option_map said_of result ≡ of_three word.now a.now b.now c.now }
{
    if is_name(a) {
        apart(word, a, b, c)
    } else {
        apart(word, c, a, b)
    }
}

/// What words say.
pub(crate) fn read_words(words: &[String]) -> Option<Said<'_>>
    ensures { option_map said_of result ≡ said_in (list_map string_bytes words.now) }
{
    match words {
        [word, a] => one_more(word.as_str(), a.as_str()),
        [word, a, b] => two_more(word.as_str(), a.as_str(), b.as_str()),
        [word, a, b, c] => three_more(word.as_str(), a.as_str(), b.as_str(), c.as_str()),
        _ => None,
    }
}

/// The rule on `-`: a word is the option, or it isn't empty and doesn't begin with a dash.
pub(crate) fn keeps_the_rule(word: &str) -> bool
    ensures { result ≡ of_rule word.now }
{
    let option = word.as_bytes().strip_prefix(b"--workers=".as_slice());
    is_name(word) || word == "--workers" || option.is_some()
}

fn are_texts(a: &str, b: &str) -> bool
    ensures { result ≡ true → a.now ≡ b.now }
{
    a == b
}

fn are_bytes(a: &[u8], b: &[u8]) -> bool
    ensures { result ≡ true → a.now ≡ b.now }
{
    a == b
}

fn are_same(own: Said<'_>, said: Said<'_>) -> bool
    ensures { result ≡ true → said_of own.entry ≡ said_of said.entry }
{
    match (own, said) {
        (Said::One(w, a), Said::One(x, b)) => are_texts(w, x) && are_texts(a, b),
        (Said::Two(w, a, c), Said::Two(x, b, d)) => are_texts(w, x)
            && are_texts(a, b)
            && are_texts(c, d),
        (Said::WithWorkers(w, a, m), Said::WithWorkers(x, b, n)) => are_texts(w, x)
            && are_texts(a, b)
            && are_bytes(m, n),
        _ => false,
    }
}

/// Whether this is what words say.
pub(crate) fn is_said(words: &[String], said: Said<'_>) -> bool
    ensures { result ≡ true → said_in (list_map string_bytes words.now) ≡ Some (said_of said.entry) }
{
    match read_words(words) {
        Some(own) => are_same(own, said),
        None => false,
    }
}
