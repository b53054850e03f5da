// Whether two records are the same: all that they hold agrees, number by number (document 02, N10).
#![tactic(auto)]

ghost use Rattle.std.specs.Prelude.{◌≡◌};
ghost use Rattle.record.specs.declared.Record.{Record};
ghost use Rattle.readings.specs.Readings.{same_of};
ghost use Rattle.read_same.specs.Same.{Compares};

use record::Record;
use refusals::Refusal;

// 14 for either record; else whether they hold the same numbers. Every slot of a list counts, used or not.
pub fn same(first: Record, second: Record) -> Result<bool, Refusal>
    ensures { result ≡ same_of first second }
{
    if !validity::valid(first) {
        return Err(Refusal::Record);
    }
    if !validity::valid(second) {
        return Err(Refusal::Record);
    }
    Ok(first == second)
}

// A theorem, and no code: of any two records `same` answers 14 where 14 refuses one of them, else yes where they are equal, and no where they are not.
pub fn same_means_equal()
    ensures { (one other : Record) → Compares one other (one ≡ other) (same_of one other) }
{}
