// What holds of every call on the store, and of every list of calls, beside demand 3. It has no code: statements that need
// definitions of their own have them in specs/, the theorems stand in proofs/.
#![tactic(auto)]
