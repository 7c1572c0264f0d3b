// What an opened board is, and demand 3 as theorems over the engine's own definitions. There is no function here.
#![tactic(auto)]
