// The one way to write a set: records packed into blocks, blocks laid on reels, and the round trip. There is no code: the
// definitions are in specs/, the theorems in proofs/.

#![tactic(auto)]
