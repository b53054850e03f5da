// A line of the listing as bytes, which grows word by word and figure by figure.
#![tactic(auto)]

ghost use Rattle.std.specs.Prelude.{◌≡◌, [], ◌∷◌, ◌++◌, ◌+◌, ◌≤◌, ◌<◌, pos, length, ◌≤ℤ◌};
ghost use Rattle.decimal.specs.Decimal.{digits_of};
ghost use Rattle.listing_lines.specs.Lines.{figure_of, field_bytes, line_bytes, held};
ghost use Rattle.listing_lines.specs.Appended.{appended};
ghost use Rattle.listing_lines.specs.Appended.{followed as Appended·followed};

// Room for any line: seven figures of at most 20 bytes, each with the space or line feed after it.
const LINE_BYTES: usize = 147;

// A line of the listing: its bytes, and 0 after the last. No ArrayVec: the definition `held` of specs/Lines names this form.
#[derive(Clone, Copy)]
pub struct Line {
    pub bytes: [u8; LINE_BYTES],
    pub length: usize,
}

pub fn empty() -> Line
    ensures { (result ≡ held []) × (result.length ≡ 0) }
{
    Line {
        bytes: [0; LINE_BYTES],
        length: 0,
    }
}

// The line with one byte more.
fn followed(line: Line, byte: u8) -> Line
    requires { line.length < line_bytes }
    ensures { result ≡ Appended·followed line byte }
{
    let mut longer = line;
    longer.bytes[line.length] = byte;
    longer.length += 1;
    longer
}

// The line with a word more.
pub fn with_word(line: Line, word: &[u8]) -> Line
    requires { line.length + length word.now ≤ line_bytes }
    ensures { (result ≡ appended line word.now) × (result.length ≡ line.length + length word.now) }
{
    let mut longer = line;
    for byte in word {
        longer = followed(longer, *byte);
    }
    longer
}

// The line with a number in decimal digits, and the byte after it.
pub fn with_number(line: Line, n: u64, end: u8) -> Line
    requires { line.length + field_bytes ≤ line_bytes }
    ensures { (result ≡ appended line (digits_of n ++ (end ∷ []))) × (result.length ≤ line.length + field_bytes) }
{
    let digits = decimal::write(n);
    let longer = with_word(line, digits.as_slice());
    followed(longer, end)
}

// The same for a figure of a signed type; no figure of a listing is negative.
pub fn with_figure(line: Line, x: i64, end: u8) -> Line
    requires { (line.length + field_bytes ≤ line_bytes) × (pos 0 ≤ℤ x) }
    ensures { (result ≡ appended line (figure_of x ++ (end ∷ []))) × (result.length ≤ line.length + field_bytes) }
{
    with_number(line, x as u64, end)
}
