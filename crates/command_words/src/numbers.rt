//! Numbers of one to four digits, between bounds.

ghost use Rattle.std.specs.Prelude.{◌≡◌, ◌≤◌, IfSome};
ghost use Rattle.command_words.specs.code.Words.{AreFew, AreImages};
ghost use Rattle.command_words.specs.Words.{four_digits as of_digits, images_in as images, number_in as within, workers_in as workers};

fn four_digits(low: u32, high: u32, a: u8, b: u8, c: u8, d: u8) -> Option<u32>
    ensures is { result ≡ of_digits low high a b c d }
    ensures bounds { IfSome result (λ n. (low ≤ n) × (n ≤ high)) }
{
    if !(a.is_ascii_digit() && b.is_ascii_digit() && c.is_ascii_digit() && d.is_ascii_digit()) {
        return None;
    }
    let hundreds = u32::from(a - b'0') * 1000 + u32::from(b - b'0') * 100;
    let number = hundreds + u32::from(c - b'0') * 10 + u32::from(d - b'0');
    if low <= number && number <= high {
        Some(number)
    } else {
        None
    }
}

fn number_in(low: u32, high: u32, digits: &[u8]) -> Option<u32>
    ensures is { result ≡ within low high digits.now }
    ensures bounds { IfSome result (λ n. (low ≤ n) × (n ≤ high)) }
{
    match digits {
        [d] => four_digits(low, high, b'0', b'0', b'0', *d),
        [c, d] => four_digits(low, high, b'0', b'0', *c, *d),
        [b, c, d] => four_digits(low, high, b'0', *b, *c, *d),
        [a, b, c, d] => four_digits(low, high, *a, *b, *c, *d),
        _ => None,
    }
}

/// A number of workers.
pub(crate) fn workers_in(digits: &[u8]) -> Option<u32>
    ensures is { result ≡ workers digits.now }
    ensures few { IfSome result AreFew }
{
    number_in(1, 16, digits)
}

/// A number of images.
pub(crate) fn images_in(digits: &[u8]) -> Option<u32>
    ensures is { result ≡ images digits.now }
    ensures bounds { IfSome result AreImages }
{
    number_in(2, 3000, digits)
}
