// The worked cases of paper 01, and small ones of the tiles that a window meets, shown of the rules themselves. No function: the cases are in specs/.
#![tactic(auto)]
