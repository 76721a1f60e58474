ghost use Rattle.std.specs.Prelude.{◌≡◌, ◌+◌, ◌*◌, ◌/◌, ◌%◌, ◌^◌, ◌<◌, ◌≤◌, [], ◌∷◌, ◌++◌, length, IfSome, is_ok, if◌then◌else◌, string_bytes, string_len, string_capacity};
ghost use Rattle.text.specs.Digits.{digit_code};
ghost use Rattle.text.specs.Numbers.{number_of, spelled, Appended};

use crate::digit::{digit, digit_char};
use std::alloc::AllocError;

const MOST_DIGITS: usize = 16;

// The number that 1 to 16 hexadecimal digits spell, with no sign, space or prefix.
#[tactic(auto, unfolding(crate::specs::Numbers::read_on))]
pub fn read_number(digits: &[u8]) -> Option<u64>
    ensures value { result ≡ number_of digits.now }
    ensures bound { IfSome result (λ n. n < 16 ^ length digits.now) }
{
    if !(1..=MOST_DIGITS).contains(&digits.len()) {
        return None;
    }
    // A loop and no fold, whose closure would not know how many digits came before, and so not that the value fits.
    let mut value: u64 = 0;
    for byte in digits {
        let low = digit(*byte as char)?;
        value = 16 * value + u64::from(low);
    }
    Some(value)
}

// The digit at a place, counted from the lowest, 0; above a value's digits stand zeros.
pub fn digit_at(value: u64, place: usize) -> char
    ensures { result ≡ digit_code (value / 16 ^ place) }
{
    if place < MOST_DIGITS {
        digit_char(((value >> (4 * place)) % 16) as u8)
    } else {
        '0'
    }
}

// Appends a character where there is room for it.
pub(crate) fn append_char(out: &mut String, c: char)
    requires ascii { c < 128 }
    requires room { string_len out.old + 1 ≤ string_capacity out.old }
    ensures { Appended 1 (c ∷ []) out.old out.new }
{
    out.push(c).unwrap();
}

// Appends where there is room for it.
#[tactic(auto, unfolding(crate::specs::Numbers::spelled))]
pub(crate) fn append_number(out: &mut String, value: u64, digits: usize)
    requires { string_len out.old + digits ≤ string_capacity out.old }
    ensures { Appended digits (spelled digits value) out.old out.new }
{
    // A `for`: of what a closure had appended a proof would know nothing.
    for place in (0..digits).rev() {
        append_char(out, digit_at(value, place));
    }
}

// Appends the low digits of a value, as many as asked for; without memory nothing changes.
pub fn push_number(out: &mut String, value: u64, digits: usize) -> Result<(), AllocError>
    ensures { string_bytes out.new ≡ (if is_ok result then string_bytes out.old ++ spelled digits value else string_bytes out.old) }
{
    out.reserve(digits)?;
    append_number(out, value, digits);
    Ok(())
}
