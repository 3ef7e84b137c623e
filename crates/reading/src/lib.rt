// What follows for every accepted set: the stages of its reading, and that its meaning is a legal sheet. There is no code: the
// definitions are in specs/, the theorems in proofs/.

#![tactic(auto)]
