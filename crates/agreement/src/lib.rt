//! The price job and the list job agree: a theorem in proofs/ from their promises alone. There is no code here.
#![tactic(auto)]
