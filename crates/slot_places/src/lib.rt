// From the slots of a valid record to the places of its network, in V, S and D: laws, and an inner definition (Depths), in specs/.
#![tactic(auto)]
