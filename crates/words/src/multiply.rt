// The product of two words, and the order of two such products.
ghost use Rattle.std.specs.Prelude.{◌≡◌, ◌+◌, ◌-◌, ◌*◌, ◌/◌, ◌%◌, ◌^◌, ◌<◌, ◌≤◌, nat_le};

use super::Product;

// The upper word of a * b.
pub fn high_word(a: u64, b: u64) -> u64
    ensures { result ≡ a * b / 2 ^ 64 }
{
    ((a as u128 * b as u128) >> 64) as u64
}

// The lower word of a * b.
fn low_word(a: u64, b: u64) -> u64
    ensures { result ≡ a * b % 2 ^ 64 }
{
    a.wrapping_mul(b)
}

// a * b in two words.
pub fn product(a: u64, b: u64) -> Product
    ensures { (result.high ≡ a * b / 2 ^ 64) × (result.low ≡ a * b % 2 ^ 64) }
{
    Product {
        high: high_word(a, b),
        low: low_word(a, b),
    }
}

// a * b less c * d, where that is a word: the lower words alone tell it.
pub fn difference(a: u64, b: u64, c: u64, d: u64) -> u64
    requires { (c * d ≤ a * b) × (a * b - c * d < 2 ^ 64) }
    ensures { result ≡ a * b - c * d }
{
    low_word(a, b).wrapping_sub(low_word(c, d))
}

// Whether a * b is at most c * d.
pub fn product_le(a: u64, b: u64, c: u64, d: u64) -> bool
    ensures { result ≡ nat_le (a * b) (c * d) }
{
    a as u128 * b as u128 <= c as u128 * d as u128
}
