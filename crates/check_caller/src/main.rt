// A caller of the library, as README shows it: the well's drawdown after one step of the scenario text on standard input, or a refusal number.
#![tactic(auto)]

use limits::TEXT_LIMIT;
use listing_input::read_full;
use readings::Place;
use refusals::Refusal;
use std::io;

// The well's drawdown, µm, after one step of 1000 ml/s for 0.5 s, or why there is none.
fn first_step(text: &[u8]) -> Result<i64, Refusal> {
    let begun = scenario::start(text);
    begun.outcome?;
    let stepped = step::step(begun.record, 1000, 500000);
    stepped.outcome?;
    read_drawdown::drawdown(stepped.record, Place::Well)
}

fn main(rt: HostRuntime) -> io::Result<()> {
    let mut text = [0u8; TEXT_LIMIT + 1];
    let got = read_full(&mut rt.reader(), &mut text)?;
    match first_step(&text[..got]) {
        Ok(drawdown) => println!(rt; "drawdown {drawdown}"),
        Err(refusal) => println!(rt; "refused {}", refusal.number()),
    }
}
