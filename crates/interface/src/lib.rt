// What the entries for C promise is in specs/.
#![tactic(auto)]
