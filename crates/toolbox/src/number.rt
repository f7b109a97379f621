//! Numbers of one to eighteen digits.

ghost use Rattle.std.specs.Prelude.{◌≡◌, ◌<◌, ◌^◌, IfSome};
ghost use Rattle.toolbox.specs.Number.{first_number, number_of};

use outside::Text;

/// The number that one to eighteen decimal digits stand for.
pub(crate) fn number_of(bytes: &[u8]) -> Option<u64>
    ensures value { result ≡ number_of bytes.now }
    ensures small { IfSome result (λ n. n < 10 ^ 18) }
{
    if bytes.is_empty() || bytes.len() > 18 {
        return None;
    }
    let mut number: u64 = 0;
    for byte in bytes {
        if *byte < b'0' || *byte > b'9' {
            return None;
        }
        number = number * 10 + u64::from(*byte - b'0');
    }
    Some(number)
}

/// The number that the first argument stands for.
pub(crate) fn first_number(args: &[Text]) -> Option<u64>
    ensures { result ≡ first_number args.now }
{
    match args {
        [first, ..] => number_of(first.as_bytes()),
        [] => None,
    }
}
