// The owner's three demands, over every operation that a caller can reach. There is no code: the theorems are in specs/.

#![tactic(auto)]
