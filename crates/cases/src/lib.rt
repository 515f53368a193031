// One case for each number of document 01, with a good neighbour, and the witnesses of its acceptance: tables in specs/, proofs in proofs/.
#![tactic(auto)]
