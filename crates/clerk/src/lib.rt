// The whole board as one clerk, as theorems over the engine's own definitions. There is no function here.
#![tactic(auto)]
