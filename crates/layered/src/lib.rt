// What layers are (paper 02, Req 10), in plain words. No function: what is claimed is in specs/, and proved in proofs/.
#![tactic(auto)]
