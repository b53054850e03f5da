// The quotients of `words` for the benchmark (bench/run-quotient) to link: no part of the model calls these functions. Each is one call, so
// that a literal operand stands where a caller in Rattle has it.
#![tactic(auto)]

ghost use Rattle.std.specs.Prelude.{◌≡◌, ◌*◌, ◌/◌, ◌^◌, ◌<◌};

use words::divide::{quotient, quotient_word};

// v * 10^6 / s, where it fits a word.
#[unsafe(no_mangle)]
pub extern "C" fn bench_word(v: u64, s: u64) -> u64
    requires { (0 < s) × (v * 1000000 / s < 2 ^ 64) }
    ensures { result ≡ v * 1000000 / s }
{
    quotient_word(v, 1000000, s)
}

// v * 10^6 / s, and 0 where it is over one word. Its contract promises nothing: only the benchmark calls it, and compares the results.
#[unsafe(no_mangle)]
pub extern "C" fn bench_fitted(v: u64, s: u64) -> u64
    requires { 0 < s }
{
    quotient(v, 1000000, s).unwrap_or(0)
}

// a * b / 10^12, a literal divisor, where it fits a word.
#[unsafe(no_mangle)]
pub extern "C" fn bench_literal(a: u64, b: u64) -> u64
    requires { a * b / 1000000000000 < 2 ^ 64 }
    ensures { result ≡ a * b / 1000000000000 }
{
    quotient_word(a, b, 1000000000000)
}
