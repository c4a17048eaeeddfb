// What holds of every reading of a text: an answer's number and line in specs/, theorems in proofs/.
#![tactic(auto)]
