// The starred examples of document 01: the table is in specs/, the proof that each holds in proofs/.
#![tactic(auto)]
