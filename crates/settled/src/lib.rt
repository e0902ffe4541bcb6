//! A corner has one choice, and so it keeps one number of coefficients: a theorem in proofs/. There is no code here.
#![tactic(auto)]
