//! Where a replica stands.

ghost use Rattle.std.specs.Prelude.{◌≡◌, option_map};
ghost use Rattle.std.specs.List.{list_all};
ghost use Rattle.host_files.specs.Pfn.{is_scheme, is_scheme_byte, path_of, url_path};

fn is_scheme_byte(byte: u8) -> bool
    ensures { result ≡ is_scheme_byte byte }
{
    byte.is_ascii_alphanumeric() || matches!(byte, b'+' | b'-' | b'.')
}

fn are_scheme_bytes(bytes: &[u8]) -> bool
    ensures { result ≡ list_all is_scheme_byte bytes.now }
{
    bytes.iter().all(|byte| is_scheme_byte(*byte))
}

/// Whether a URL's scheme has this spelling (RFC 3986, 3.1).
fn is_scheme(word: &[u8]) -> bool
    ensures { result ≡ is_scheme word.now }
{
    match word {
        [] => false,
        [first, rest @ ..] => first.is_ascii_alphabetic() && are_scheme_bytes(rest),
    }
}

/// The path of a pfn, with what stands in it before and behind `://`.
fn url_path<'a>(pfn: &'a str, scheme: &str, path: &'a str) -> Option<&'a str>
    ensures { option_map (λ p. p.now) result ≡ url_path pfn.now scheme.now path.now }
{
    match scheme {
        "file" => Some(path),
        _ if is_scheme(scheme.as_bytes()) => None,
        _ => Some(pfn),
    }
}

/// The path of a pfn: a pfn is a path, with or without `file://` before it. One with another scheme has none.
pub fn path_of(pfn: &str) -> Option<&str>
    ensures { option_map (λ p. p.now) result ≡ path_of pfn.now }
{
    match pfn.split_once("://") {
        Some((scheme, path)) => url_path(pfn, scheme, path),
        None => Some(pfn),
    }
}
