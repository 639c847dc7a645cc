//! Whether a text is a value of a form, as the programs' readers have it, and if not, what it lacks.

ghost use Rattle.std.specs.Prelude.{◌≡◌};
ghost use Rattle.dns_reasons.specs.Values.{cause, network_cause, nothing_cause, socket_cause, takes, takes_network, takes_number, takes_prefix, value_fault, width};

use crate::keys::Form;
use crate::why::Why;
use dns_io::Ip;
use dns_words::{address_of, decimal_of, first_place, ip_of};

/// Why a text is no value of a form; none where it is one.
pub(crate) fn value_fault(form: Form, text: &[u8]) -> Option<Why>
    ensures { result ≡ value_fault form text.now }
{
    if takes(form, text) {
        return None;
    }
    Some(cause(form, text))
}

/// Whether a text is a value of a form: the readers of the programs decide it.
pub(crate) fn takes(form: Form, text: &[u8]) -> bool
    ensures { result ≡ takes form text.now }
{
    match form {
        Form::Nothing => text.is_empty(),
        Form::Path => !text.is_empty(),
        Form::Socket => address_of(text).is_some(),
        Form::Network => takes_network(text),
        Form::Number(least, most) => takes_number(least, most, text),
    }
}

/// Whether a text is a decimal number in a range, with no zero before another digit.
pub(crate) fn takes_number(least: u64, most: u64, text: &[u8]) -> bool
    ensures { result ≡ takes_number least most text.now }
{
    match decimal_of(u128::from(most) + 1, text) {
        Some(number) => least <= number,
        None => false,
    }
}

/// Whether a text is an address in hex digits, `/`, and at most as many bits as the address has.
#[tactic(auto, unfolding(crate::specs::Values::takes_network))]
fn takes_network(text: &[u8]) -> bool
    ensures { result ≡ takes_network text.now }
{
    let Some(place) = first_place(b'/', text) else {
        return false;
    };
    let (ip, _) = text.split_at(place);
    let (_, prefix) = text.split_at(place + 1);
    match ip_of(ip) {
        Some(ip) => takes_prefix(ip, prefix),
        None => false,
    }
}

/// Whether a text is a number of bits that an address has.
fn takes_prefix(ip: Ip, prefix: &[u8]) -> bool
    ensures { result ≡ takes_prefix ip prefix.now }
{
    takes_number(0, width(ip), prefix)
}

/// How many bits an address has.
fn width(ip: Ip) -> u64
    ensures { result ≡ width ip }
{
    match ip {
        Ip::V4(_) => 32,
        Ip::V6(_) => 128,
    }
}

/// What a text lacks that is no value of a form.
pub(crate) fn cause(form: Form, text: &[u8]) -> Why
    ensures { result ≡ cause form text.now }
{
    match form {
        Form::Nothing => nothing_cause(text),
        Form::Path => Why::Path,
        Form::Socket => socket_cause(text),
        Form::Network => network_cause(text),
        Form::Number(least, most) => Why::Range(least, most),
    }
}

/// What is wrong with a text where nothing may stand: it is a value, or makes the word another one.
#[tactic(auto, unfolding(crate::specs::Values::nothing_cause))]
fn nothing_cause(text: &[u8]) -> Why
    ensures { result ≡ nothing_cause text.now }
{
    match text {
        [b'=', ..] => Why::Alone,
        _ => Why::Unknown,
    }
}

/// What a text lacks that is no address and port: a colon, an address before it, or a port behind it.
#[tactic(auto, unfolding(crate::specs::Values::socket_cause))]
fn socket_cause(text: &[u8]) -> Why
    ensures { result ≡ socket_cause text.now }
{
    let Some(place) = first_place(b':', text) else {
        return Why::Socket;
    };
    let (ip, _) = text.split_at(place);
    if ip_of(ip).is_some() {
        return Why::Port;
    }
    Why::Host
}

/// What a text lacks that is no network: a stroke, an address before it, or a number of bits behind it.
#[tactic(auto, unfolding(crate::specs::Values::network_cause))]
fn network_cause(text: &[u8]) -> Why
    ensures { result ≡ network_cause text.now }
{
    let Some(place) = first_place(b'/', text) else {
        return Why::Network;
    };
    let (ip, _) = text.split_at(place);
    match ip_of(ip) {
        Some(ip) => Why::Bits(width(ip)),
        None => Why::Ip,
    }
}
