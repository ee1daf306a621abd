// The list of packets that a run carries: no code. The rule and what is shown of it are in specs/, the proofs in proofs/.
#![tactic(auto)]
