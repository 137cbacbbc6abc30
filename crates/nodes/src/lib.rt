// What the lists of an iteration hold is in specs/, and laws of it in proofs/; the code is in check_nodes, posterior and variable_nodes.
#![tactic(auto)]
