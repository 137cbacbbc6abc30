// What a run text gives and what is printed: specs/ alone.
#![tactic(auto)]
