// Arithmetic on two words: the whole product of two words, its quotient by a word, rounded down, and the comparison of two products. The
// rules under 'Geometry to coefficients' in document 01 rest on that quotient, and so do drawdown and flow.
#![tactic(auto)]

pub mod divide;
pub mod multiply;

// A number of two words, high * 2^64 + low.
#[derive(Clone, Copy)]
pub struct Product {
    pub high: u64,
    pub low: u64,
}
