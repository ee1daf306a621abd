// The demands: no code. Their statements are in specs/, their proofs in proofs/.
#![tactic(auto)]
