//! Numbers, read from their texts.

ghost use Rattle.std.specs.Prelude.{◌≡◌, ◌<◌, ◌==◌, true, false, length, slice_index, option_map, Some, IsTrue, IfSome};
ghost use Rattle.serde_json.specs.Data.{unsigned};
ghost use Rattle.serde_json.specs.Find.{as_u64, as_integer};
ghost use Rattle.serde_json.specs.Read.{number_of, number_from, float_of};
ghost use Rattle.json_tape.specs.Number.{num};

use fast_float::{Numeral, parse_u64};

/// A number of so many digits at most is read digit by digit.
const FEW: usize = 9;

/// A number, as `parse` gives it: an integer that fits 64 bits, below nothing where it is `Negative`, or a float, which is finite.
#[derive(Clone, Copy)]
pub enum Number {
    Unsigned(u64),
    Negative(i64),
    Float(f64),
}

impl Number {
    /// The number that a text of JSON writes, where there is one.
    #[inline(always)]
    pub fn parse(text: &str) -> Option<Number>
        ensures { option_map num result ≡ number_of text.now }
    {
        match digit(text.as_bytes()) {
            Some(digit) => Some(Number::Unsigned(digit)),
            None => Number::parse_long(text),
        }
    }

    // The same of a text of any length; most are digits alone.
    #[inline(never)]
    fn parse_long(text: &str) -> Option<Number>
        ensures { option_map num result ≡ number_of text.now }
    {
        let bytes = text.as_bytes();
        if let Some(natural) = few_digits(bytes) {
            return Some(Number::Unsigned(natural));
        }
        match natural(bytes) {
            Some(natural) => Some(Number::Unsigned(natural)),
            None => Number::parse_any(text),
        }
    }

    // The same of a text of any form.
    #[inline(never)]
    fn parse_any(text: &str) -> Option<Number>
        ensures { option_map num result ≡ number_of text.now }
    {
        let bytes = text.as_bytes();
        if has_minus(bytes) {
            Number::negative(&Numeral::scan(&bytes[1..]))
        } else {
            Number::unsigned(&Numeral::scan(bytes))
        }
    }

    fn unsigned(numeral: &Numeral<'_>) -> Option<Number>
        ensures { option_map num result ≡ number_from false numeral.now }
    {
        match numeral.to_u64() {
            Some(n) => Some(Number::Unsigned(n)),
            None => Number::float(false, numeral),
        }
    }

    fn negative(numeral: &Numeral<'_>) -> Option<Number>
        ensures { option_map num result ≡ number_from true numeral.now }
    {
        if let Some(n) = numeral.to_i64(true) {
            if n < 0 {
                return Some(Number::Negative(n));
            }
        }
        Number::float(true, numeral)
    }

    fn float(negative: bool, numeral: &Numeral<'_>) -> Option<Number>
        ensures { option_map num result ≡ float_of negative numeral.now }
    {
        let x = numeral.to_float::<f64>(negative);
        if x.is_finite() {
            Some(Number::Float(x))
        } else {
            None
        }
    }

    /// The number, where it is whole and not below 0.
    pub fn as_u64(self) -> Option<u64>
        ensures { result ≡ as_u64 (num self) }
    {
        match self {
            Number::Unsigned(n) => Some(n),
            Number::Negative(_) | Number::Float(_) => None,
        }
    }

    /// The number, where it is whole.
    pub fn as_i128(self) -> Option<i128>
        ensures { result ≡ as_integer (num self) }
    {
        match self {
            Number::Unsigned(n) => Some(n as i128),
            Number::Negative(n) => Some(n as i128),
            Number::Float(_) => None,
        }
    }
}

/// The number that a single digit is; most numbers of a story are.
#[inline(always)]
fn digit(bytes: &[u8]) -> Option<u64>
    ensures { IfSome result (λ n. number_of bytes.now ≡ Some (unsigned n)) }
{
    if bytes.len() != 1 {
        return None;
    }
    let digit = bytes[0];
    if digit < b'0' || digit > b'9' {
        return None;
    }
    Some((digit - b'0') as u64)
}

/// The number that a few digits alone are.
#[inline(always)]
fn few_digits(bytes: &[u8]) -> Option<u64>
    ensures { IfSome result (λ n. number_of bytes.now ≡ Some (unsigned n)) }
{
    let len = bytes.len();
    if len == 0 || len > FEW {
        return None;
    }
    let mut value: u64 = 0;
    for at in 0..len {
        let byte = bytes[at];
        if byte < b'0' || byte > b'9' {
            return None;
        }
        value = value * 10 + (byte - b'0') as u64;
    }
    Some(value)
}

/// The number that digits alone are, where it fits 64 bits.
#[inline(always)]
fn natural(bytes: &[u8]) -> Option<u64>
    ensures { IfSome result (λ n. number_of bytes.now ≡ Some (unsigned n)) }
{
    // A plus is no part of a number of JSON, but may stand before one elsewhere.
    if bytes.is_empty() || bytes[0] < b'0' {
        return None;
    }
    match parse_u64(bytes) {
        Ok(natural) => Some(natural),
        Err(_) => None,
    }
}

fn has_minus(bytes: &[u8]) -> bool
    ensures value { result ≡ (slice_index bytes.now 0 == 45) }
    ensures len { IsTrue result → 0 < length bytes.now }
{
    !bytes.is_empty() && bytes[0] == b'-'
}
