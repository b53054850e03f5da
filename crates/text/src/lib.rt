// The scenario text: its lines to numbers.
#![tactic(auto)]

ghost use Rattle.std.specs.Prelude.{◌≡◌, ◌==◌, length, position, set};
ghost use Rattle.limits.specs.Limits.{number_places};
ghost use Rattle.text.specs.Text.{line_feed, read_of};

use limits::{NUMBER_PLACES, TEXT_LIMIT};

// What ends a line.
const LINE_FEED: u8 = b'\n';

// The numbers of a text: how many there are, and the first of them, with 0 after the last. No ArrayVec: more can be counted than are kept.
#[derive(Clone, Copy)]
pub struct Numbers {
    pub count: usize,
    pub values: [u64; NUMBER_PLACES],
}

// Where the first line of a text ends: its line feed, if there is one.
fn line_end(text: &[u8]) -> Option<usize>
    ensures { result ≡ position (λ c. c == line_feed) text.now }
{
    text.iter().position(|c| *c == LINE_FEED)
}

// A number kept at its place, if there is one.
fn keep(values: &mut [u64; NUMBER_PLACES], at: usize, v: u64)
    requires { length values.old ≡ number_places }
    ensures { values.new ≡ set values.old at v }
{
    if at < NUMBER_PLACES {
        values[at] = v;
    }
}

// The numbers of a text, if it has the form.
pub fn read(text: &[u8]) -> Option<Numbers>
    ensures { result ≡ read_of text.now }
{
    if TEXT_LIMIT < text.len() {
        return None;
    }
    let mut values = [0; NUMBER_PLACES];
    let mut count = 0;
    let mut rest = text;
    while let Some(end) = line_end(rest) {
        let v = decimal::read(&rest[..end])?;
        keep(&mut values, count, v);
        count += 1;
        rest = &rest[end + 1..];
    }
    if !rest.is_empty() {
        return None;
    }
    Some(Numbers { count, values })
}
