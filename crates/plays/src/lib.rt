// What a sheet plays is a history: theorems only, in specs/ and proofs/.
#![tactic(auto)]
