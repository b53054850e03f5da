// The record that start gives for an accepted text, and what steps from it keep: laws only, in specs/.
#![tactic(auto)]
