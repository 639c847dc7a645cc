//! Escapes in the text of a zone (RFC 1035 5.1).

ghost use Rattle.std.specs.Prelude.{◌≡◌, ◌+◌, ◌≤◌, length, IfSome};
ghost use Rattle.dns_name.specs.Escapes.{is_digit, decimal_of, decimal_escape, escape_of};

/// The byte that a backslash before this text means, and how many bytes of the text belong to the escape, 1 or 3
/// (RFC 1035 5.1): `\DDD` is the byte with this decimal number, at most 255, and `\X` is the character X, which is no
/// digit. `None` is given where the backslash begins no escape.
pub fn escape_of(text: &[u8]) -> Option<(u8, usize)>
    ensures escape { result ≡ escape_of text.now }
    ensures within { IfSome result (λ escape. escape.1 ≤ length text.now) }
{
    let [first, rest @ ..] = text else {
        return None;
    };
    if is_digit(*first) {
        return decimal_escape(*first, rest);
    }
    Some((*first, 1))
}

/// The byte that a backslash and this digit mean.
fn decimal_escape(first: u8, text: &[u8]) -> Option<(u8, usize)>
    ensures escape { result ≡ decimal_escape first text.now }
    ensures within { IfSome result (λ escape. escape.1 ≤ length text.now + 1) }
{
    let [second, third, ..] = text else {
        return None;
    };
    let number = decimal_of(first, *second, *third);
    if is_digit(*second) && is_digit(*third) && number <= 255 {
        return Some((number as u8, 3));
    }
    None
}

fn is_digit(byte: u8) -> bool
    ensures { result ≡ is_digit byte }
{
    byte >= b'0' && byte <= b'9'
}

/// The number that three digits write.
fn decimal_of(first: u8, second: u8, third: u8) -> u16
    ensures { result ≡ decimal_of first second third }
{
    let hundreds = u16::from(first.saturating_sub(48));
    let tens = u16::from(second.saturating_sub(48));
    let ones = u16::from(third.saturating_sub(48));
    100 * hundreds + 10 * tens + ones
}
