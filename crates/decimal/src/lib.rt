// Decimal whole numbers: digits to number and number to digits.
#![tactic(auto)]

ghost use Rattle.std.specs.Prelude.{◌≡◌, true, cond, Some, None, ◌+◌, ◌-◌, ◌*◌, ◌^◌, ◌≤◌, ◌<◌, length};
ghost use Rattle.laws.specs.Lists.{every};
ghost use Rattle.limits.specs.Limits.{digit_limit};
ghost use Rattle.decimal.specs.Decimal.{zero_byte, is_digit, value, decimal_of, digits_of};

use arrayvec::ArrayVec;
use limits::DIGIT_LIMIT;

// The byte of the digit 0.
const ZERO: u8 = b'0';

// The most digits of a word.
const DIGIT_PLACES: usize = 20;

// The number with one digit more at its end.
fn joined(v: u64, c: u8) -> u64
    requires { (v * 10 < 10 ^ digit_limit) × (is_digit c ≡ true) }
    ensures { result ≡ v * 10 + (c - zero_byte) }
{
    v * 10 + (c - ZERO) as u64
}

// Bytes that are to be digits only, few enough for a word.
fn read_digits(s: &[u8]) -> Option<u64>
    requires { length s.now ≤ digit_limit }
    ensures { result ≡ cond (every is_digit s.now) (Some (value s.now)) None }
{
    let mut v = 0;
    for c in s {
        if !c.is_ascii_digit() {
            return None;
        }
        v = joined(v, *c);
    }
    Some(v)
}

// A text read as a decimal whole number.
pub fn read(s: &[u8]) -> Option<u64>
    ensures { result ≡ decimal_of s.now }
{
    if s.is_empty() {
        return None;
    }
    if DIGIT_LIMIT < s.len() {
        return None;
    }
    if 1 < s.len() && s[0] == ZERO {
        return None;
    }
    read_digits(s)
}

// A number written in decimal digits.
pub fn write(n: u64) -> ArrayVec<u8, DIGIT_PLACES>
    ensures { result.items ≡ digits_of n }
{
    let mut digits = if n < 10 {
        ArrayVec::new()
    } else {
        write(n / 10)
    };
    digits.push(ZERO + (n % 10) as u8);
    digits
}
