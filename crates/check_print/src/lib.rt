// What the programs that are held to the reference model read and print: the file that an argument names, and refusals. Of what is printed its
// functions promise nothing: it is held to the model's.
#![tactic(auto)]

ghost use Rattle.std.specs.Io.{ReadsAtMost};

use listing_input::read_full;
use refusals::Refusal;
use std::fs;
use std::io::{self, Write};
use std::rt::Files;

// The size of a number; that of the least number of 64 bits is left at 0.
pub fn size(v: i64) -> u64 {
    if v == i64::MIN { 0 } else { v.unsigned_abs() }
}

pub fn print_refusal(out: &mut impl Write, refusal: Refusal) -> io::Result<()> {
    write!(out, " refused {}", refusal.number())
}

// What became of steps.
pub fn print_outcome(out: &mut impl Write, outcome: Result<(), Refusal>) -> io::Result<()> {
    match outcome {
        Ok(()) => write!(out, " taken"),
        Err(refusal) => print_refusal(out, refusal),
    }
}

// The line above what is printed of a state: the entry after which it is, from 0 for the start, and what became of its steps.
pub fn print_heading(
    out: &mut impl Write,
    number: u64,
    outcome: Result<(), Refusal>,
) -> io::Result<()> {
    write!(out, "after {number}")?;
    print_outcome(out, outcome)?;
    writeln!(out)
}

// The line of a scenario text that start refuses.
pub fn print_refused_scenario(out: &mut impl Write, refusal: Refusal) -> io::Result<()> {
    writeln!(out, "scenario {}", refusal.number())
}

// Prints the name that an argument gives, reads its file to the end or until the text is full, and answers how many bytes it read.
pub fn read_argument<R: Files>(
    rt: &R,
    out: &mut impl Write,
    name: &str,
    text: &mut [u8],
) -> io::Result<usize>
    ensures { ReadsAtMost result text.new }
{
    writeln!(out, "{name}")?;
    let mut file = fs::open(rt, name)?;
    read_full(&mut file, text)
}
