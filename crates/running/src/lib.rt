// The runner from a plan's and a table's text to match lines: definitions in specs/, theorems in proofs/; the code is in `execution` and `entries`.
#![tactic(auto)]
