// A step worked by the slots of a valid record is the step of its network: laws, and inner definitions (Terms), in specs/.
#![tactic(auto)]
