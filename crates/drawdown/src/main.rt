// Reads a scenario text from standard input and prints its listing. What cannot be read or written is said on standard error, and a text that
// could not be read whole gets no answer.
#![tactic(auto)]

use limits::TEXT_LIMIT;
use listing_input::read_full;
use std::io::{self, ErrorKind, Read};

// Says what could not be done. Where standard error cannot be written either, nothing is left to say it on.
fn say(rt: &impl Eprint, what: &str) {
    let _ = eprintln!(rt; "drawdown: {what}");
}

// The same with the reason.
fn fail(rt: &impl Eprint, what: &str, reason: &io::Error) {
    let _ = eprintln!(rt; "drawdown: {what}: {reason}");
}

// Whether the input has ended after what was read of it: one more read gives nothing.
fn input_ended(rt: &impl Eprint, input: &mut impl Read) -> bool {
    match read_full(input, &mut [0]) {
        Ok(0) => true,
        Ok(_) => {
            say(rt, "standard input could not be read in one go");
            false
        }
        Err(error) => {
            fail(rt, "standard input cannot be read", &error);
            false
        }
    }
}

// Prints the listing of a text. A reader that has gone away is no failure.
fn answer(rt: &(impl Print + Eprint), text: &[u8]) {
    if let Err(error) = listing_print::print_listing(&mut io::writer(rt), text)
        && error.kind() != ErrorKind::BrokenPipe
    {
        fail(
            rt,
            "the listing is not whole: standard output cannot be written",
            &error,
        );
    }
}

fn main(rt: HostRuntime) {
    // one byte more than a text may have, so that this many show that it is too long
    let mut text = [0u8; TEXT_LIMIT + 1];
    let mut input = rt.reader();
    match read_full(&mut input, &mut text) {
        Ok(got) => {
            if got == text.len() || input_ended(&rt, &mut input) {
                answer(&rt, &text[..got]);
            }
        }
        Err(error) => fail(&rt, "standard input cannot be read", &error),
    }
}
