// Nothing runs here: the plan of document 01 as definitions is in specs/, its laws in proofs/.
#![tactic(auto)]
