// The new file that a repack makes of an accepted one. No function: its bytes are in specs/, what is proved of them in proofs/.
#![tactic(auto)]
