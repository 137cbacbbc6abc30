// What encode promises is in specs/.
#![tactic(auto)]
