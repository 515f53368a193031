// The third demand: what is stated is in specs/, its proof in proofs/.
#![tactic(auto)]
