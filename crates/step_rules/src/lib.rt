// One step on a record and many equal ones: their definitions and laws only, in specs/, and what the proofs of code that takes steps cite, in proofs/.
#![tactic(auto)]
