// The trials P1 to P11 (§10), as data, and the one theorem that they all hold. There is no function here.
#![tactic(auto)]
