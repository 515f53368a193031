// What every command keeps: the statement in specs/, its proof over the definitions of the commands in proofs/.
#![tactic(auto)]
