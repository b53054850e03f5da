// Levels after the pump stops (document 02, N14): a theorem, and no code.
#![tactic(auto)]

ghost use Rattle.std.specs.Prelude.{◌≡◌, true, List, ℕ};
ghost use Rattle.laws.specs.Lists.{every};
ghost use Rattle.record.specs.declared.Record.{Record};
ghost use Rattle.validity.specs.Validity.{valid};
ghost use Rattle.ledger.specs.Calls.{Reading, Call, step, read};
ghost use Rattle.ledger_recovery.specs.Recovery.{is_at_rest, Recovers};

// For every record that 14 does not refuse, made by a run or by hand, and every list of calls on it in which each step has rate 0, refused ones among
// them: all that Recovers says, from one call to the next and from the first record to the last. A step at rate 0 of any length and any reading may be in the
// list.
pub fn recovery()
    ensures { ((rec : Record) → valid rec ≡ true → (calls : List Call) → every is_at_rest calls ≡ true → Recovers rec calls) × ((dt : ℕ) → is_at_rest (step 0 dt) ≡ true) × ((q : Reading) → is_at_rest (read q) ≡ true) }
{}
