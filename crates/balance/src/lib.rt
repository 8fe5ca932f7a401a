// The pure theory of pushes. It has no code: definitions stand in specs/, theorems in proofs/.
#![tactic(auto)]
