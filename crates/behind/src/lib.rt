// A table's frames behind a query's: what is found among both. Laws alone, in proofs/.
#![tactic(auto)]
