// The cases of bore K that document 01 marks K, and one more, as theorems about the definitions: the rows in specs/Table.antt, the theorem `agrees` in proofs/Agrees.antt. No code.
#![tactic(auto)]
