// The starred examples of the rules: a table in specs/, one theorem in proofs/. There is no code here.

#![tactic(auto)]
