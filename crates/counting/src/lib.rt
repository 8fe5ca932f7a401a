// Sums, counts and searches over the numbers below a bound. It has no code: definitions stand in specs/, laws in proofs/.
#![tactic(auto)]
