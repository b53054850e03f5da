// What a yes of same is worth (document 02, N10): three theorems, and no code.
#![tactic(auto)]

ghost use Rattle.std.specs.Prelude.{◌≡◌, true, List, ℕ, Ok};
ghost use Rattle.record.specs.declared.Record.{Record};
ghost use Rattle.step.specs.Repeat.{repeat_of};
ghost use Rattle.readings.specs.Readings.{same_of};
ghost use Rattle.read_same.specs.Same.{Compares};
ghost use Rattle.ledger.specs.Calls.{Call, replies_to};
ghost use Rattle.ledger_same.specs.SameDrawdowns.{SameDrawdowns, same_drawdowns_of};
ghost use Rattle.ledger_same.specs.SameCalls.{SameCalls, records_after, AfterEach};

// Where `same` says yes, layer and column counts are equal, the drawdown reading gives the same of both records at every place, and document 01's rule says yes.
// And that rule is this: of any two records it says yes exactly where these counts and readings are equal, after 14 for either.
pub fn same_drawdowns()
    ensures { ((one other : Record) → same_of one other ≡ Ok true → SameDrawdowns one other × (same_drawdowns_of one other ≡ Ok true)) × ((one other : Record) → Compares one other (SameDrawdowns one other) (same_drawdowns_of one other)) }
{}

// For any two records of which `same` says yes, and the same list of calls made on each: what the calls give back is equal, answers and lent lists, and so
// is the record after each call. Any list of calls is the same as itself, so that no call is left out; and the records after each call are those that the
// calls up to it leave, so that none of these is left out.
pub fn same_runs()
    ensures { ((one other : Record) → same_of one other ≡ Ok true → (calls others : List Call) → SameCalls calls others → (replies_to one calls ≡ replies_to other others) × (records_after one calls ≡ records_after other others)) × ((calls : List Call) → SameCalls calls calls) × ((one : Record) (calls : List Call) → AfterEach one calls (records_after one calls)) }
{}

// And so is all that a call of `repeat` answers: outcome, record, and how many steps were taken.
pub fn same_repeats()
    ensures { (one other : Record) → same_of one other ≡ Ok true → (rate dt steps : ℕ) → repeat_of one rate dt steps ≡ repeat_of other rate dt steps }
{}
