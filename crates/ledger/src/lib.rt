// Demand 3 over every run: a theorem, and no code.
#![tactic(auto)]

ghost use Rattle.std.specs.Prelude.{◌≡◌, List, ℕ, Ok};
ghost use Rattle.scenario.specs.Scenario.{start_of};
ghost use Rattle.ledger.specs.Calls.{Call, left_by_all, replies_to};
ghost use Rattle.ledger.specs.Promise.{Holds};

// For every text that start accepts and every list of calls from the record that it gives: all that Holds says, of what the calls give back and of
// the record at the end of the list. A list cut short is a list, so this is said before the first call and after each.
pub fn ledger()
    ensures { (text : List ℕ) → (start_of text).outcome ≡ Ok tt → (calls : List Call) → Holds text calls (replies_to (start_of text).«record» calls) (left_by_all (start_of text).«record» calls) }
{}
