// What a block attains and a corner's choice: definitions in specs/, how the best choice at a price meets them in proofs/. There is no code here.

#![tactic(auto)]
