// Prints the controller's choice (document 02, N13) for each list of each choice text that an argument names, with the checksum of the record handed back; the
// reference model prints the same (tests/stored). A choice text is a scenario text, an empty line, and numbers one a line: of each list the length of a step,
// the number of steps, how many rates there are, and the rates.
#![tactic(auto)]

ghost use Rattle.std.specs.Prelude.{◌≤◌, length};

use check_hash::checksum_of;
use check_print::{print_heading, print_refusal, print_refused_scenario, read_argument};
use limits::{ENTRY_LIMIT, TEXT_LIMIT, TOTAL_LIMIT};
use record::Record;
use std::env;
use std::io::{self, BufWriter, Write};
use std::rt::Files;

// The choice, and the checksum of the record handed back.
fn print_choice(
    out: &mut impl Write,
    rec: &Record,
    rates: &[u64],
    length: u64,
    steps: u64,
) -> io::Result<()> {
    let chosen = control_choice::choose(*rec, rates, length, steps);
    match chosen.choice {
        Ok(Some(rate)) => write!(out, " rate {rate}")?,
        Ok(None) => write!(out, " none")?,
        Err(refusal) => print_refusal(out, refusal)?,
    }
    writeln!(out, " {}", checksum_of(&chosen.record))
}

// A line for each list. One that is cut short has as many rates as are left.
fn print_lists(out: &mut impl Write, rec: &Record, numbers: &[u64]) -> io::Result<()> {
    let mut rest = numbers;
    for number in 1..=numbers.len() {
        let [length, steps, count, others @ ..] = rest else {
            break;
        };
        let (rates, after) = others.split_at(others.len().min(*count as usize));
        rest = after;
        write!(out, "choice {number}")?;
        print_choice(out, rec, rates, *length, *steps)?;
    }
    Ok(())
}

// Numbers that no line can hold.
fn print_words(out: &mut impl Write, rec: &Record) -> io::Result<()> {
    write!(out, "words 1")?;
    print_choice(out, rec, &[0, u64::MAX], u64::MAX, 1)?;
    write!(out, "words 2")?;
    print_choice(out, rec, &[u64::MAX - 1, u64::MAX], 1, u64::MAX)
}

// What is chosen at the start and after each pumping entry, and the record after the last.
fn print_states(
    out: &mut impl Write,
    text: &[u8],
    numbers: &[u64],
    start: Record,
) -> io::Result<Record> {
    print_heading(out, 0, Ok(()))?;
    print_lists(out, &start, numbers)?;
    print_words(out, &start)?;
    let mut rec = start;
    for number in 1..=ENTRY_LIMIT {
        let Ok(entry) = scenario::pumping_entry(text, number) else {
            break;
        };
        let repeated = step::repeat(rec, entry.rate, entry.length, entry.repeats);
        rec = repeated.record;
        print_heading(out, number, repeated.outcome)?;
        print_lists(out, &rec, numbers)?;
        print_words(out, &rec)?;
    }
    Ok(rec)
}

// The states, and then a record that 14 refuses.
fn print_text(out: &mut impl Write, text: &[u8], numbers: &[u64]) -> io::Result<()> {
    let begun = scenario::start(text);
    if let Err(refusal) = begun.outcome {
        return print_refused_scenario(out, refusal);
    }
    let mut broken = print_states(out, text, numbers, begun.record)?;
    broken.time = TOTAL_LIMIT + 1;
    writeln!(out, "broken")?;
    print_lists(out, &broken, numbers)
}

// The numbers after the empty line that ends the scenario text.
fn print_parts(out: &mut impl Write, bytes: &[u8]) -> io::Result<()> {
    let Some(end) = bytes.windows(2).position(|pair| matches!(pair, b"\n\n")) else {
        return writeln!(out, "no lists");
    };
    let (text, lists) = bytes.split_at(end + 1);
    match text::read(&lists[1..]) {
        Some(numbers) => {
            let count = numbers.count.min(numbers.values.len());
            print_text(out, text, &numbers.values[..count])
        }
        None => print_text(out, text, &[]),
    }
}

// The choice text of the file that an argument names.
fn print_file(rt: &impl Files, out: &mut impl Write, name: &str) -> io::Result<()> {
    let mut bytes = [0u8; TEXT_LIMIT];
    let got = read_argument(rt, out, name, &mut bytes)?;
    print_parts(out, &bytes[..got])
}

fn main(rt: HostRuntime) -> io::Result<()> {
    let mut out = BufWriter::new(rt.alloc(), io::writer(&rt))?;
    for name in env::args(&rt)?.skip(1) {
        print_file(&rt, &mut out, name.as_str())?;
    }
    out.flush()
}
