// Demand 3 over the entries of planner and runner: theorems alone; they stand in specs/.
#![tactic(auto)]
