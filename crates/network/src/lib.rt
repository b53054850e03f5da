// Places, faces and the rules of a step, with their laws; no code.
#![tactic(auto)]
