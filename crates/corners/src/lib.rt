// No code: what is said of corners is in specs/, and its proofs are in proofs/.

#![tactic(auto)]
