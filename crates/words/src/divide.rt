// The quotient of a product of two words by a word: long division in digits of 32 bits. The divisor is first brought to full width by its
// leading zeros, so that its upper half estimates a digit at most 2 too high, and two tests put the estimate right.
ghost use Rattle.std.specs.Prelude.{◌≡◌, ◌+◌, ◌*◌, ◌/◌, ◌%◌, ◌^◌, ◌<◌, ◌≤◌};
ghost use Rattle.words.specs.Fitted.{fitted};

use super::multiply::product;

// One step of the long division: the digit and what it leaves.
#[derive(Clone, Copy)]
struct Division {
    quotient: u64,
    rest: u64,
}

// The digit of top * 2^32 + next by a divisor of full width, for a top below the divisor. The divisor's upper half alone estimates the
// digit and leaves `have`, of which the lower half needs `need`. Where that is short by up to one divisor the digit is 1 less, else 2 less.
fn digit(top: u64, next: u64, divisor: u64) -> Division
    requires { (2 ^ 63 ≤ divisor) × (top < divisor) × (next < 2 ^ 32) }
    ensures { (result.quotient ≡ (top * 2 ^ 32 + next) / divisor) × (result.rest ≡ (top * 2 ^ 32 + next) % divisor) }
{
    let upper = divisor >> 32;
    let lower = divisor & 0xffff_ffff;
    let estimate = top / upper;
    let have = (top % upper) * 0x1_0000_0000 + next;
    let need = estimate * lower;
    if need <= have {
        return Division {
            quotient: estimate,
            rest: have - need,
        };
    }
    let short = need - have;
    if short <= divisor {
        return Division {
            quotient: estimate - 1,
            rest: divisor - short,
        };
    }
    Division {
        quotient: estimate - 2,
        rest: divisor - (short - divisor),
    }
}

// The quotient of top * 2^64 + low by a divisor of full width, for a top below the divisor: two digits, or one where the upper is 0.
fn by_full_width(top: u64, low: u64, divisor: u64) -> u64
    requires { (2 ^ 63 ≤ divisor) × (top < divisor) }
    ensures { result ≡ (top * 2 ^ 64 + low) / divisor }
{
    let next = low >> 32;
    let last = low & 0xffff_ffff;
    if top < divisor >> 32 {
        let only = digit(top * 0x1_0000_0000 + next, last, divisor);
        return only.quotient;
    }
    let first = digit(top, next, divisor);
    let second = digit(first.rest, last, divisor);
    first.quotient * 0x1_0000_0000 + second.quotient
}

// The quotient of high * 2^64 + low by d, for a high word below d. A dividend of one word is divided at once; else dividend and divisor are
// shifted left alike. What `low` sends up is shifted right in two parts, since no shift can be as long as the word.
fn by_word(high: u64, low: u64, d: u64) -> u64
    requires { high < d }
    ensures { result ≡ (high * 2 ^ 64 + low) / d }
{
    if high == 0 {
        return low / d;
    }
    let shift = d.leading_zeros();
    let top = (high << shift) + ((low >> 1) >> (63 - shift));
    by_full_width(top, low << shift, d << shift)
}

// a * b / d, rounded down, where it fits a word.
pub fn quotient(a: u64, b: u64, d: u64) -> Option<u64>
    requires { 0 < d }
    ensures { result ≡ fitted (a * b / d) }
{
    let p = product(a, b);
    if p.high < d {
        return Some(by_word(p.high, p.low, d));
    }
    None
}

// a * b / d, rounded down, which fits a word.
pub fn quotient_word(a: u64, b: u64, d: u64) -> u64
    requires { (0 < d) × (a * b / d < 2 ^ 64) }
    ensures { result ≡ a * b / d }
{
    let p = product(a, b);
    by_word(p.high, p.low, d)
}
