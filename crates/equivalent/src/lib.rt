// Scans that say the same. No function: the relation is in specs/, and what follows from it in proofs/.
#![tactic(auto)]
