// What the calls on a graph promise is in specs/.
#![tactic(auto)]
