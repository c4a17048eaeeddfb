// The plan as text: definitions in specs/, theorems in proofs/.
#![tactic(auto)]
