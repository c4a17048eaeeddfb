// The words of demand 3 in specs/, and the laws of plans by a fair choice in proofs/.
#![tactic(auto)]
