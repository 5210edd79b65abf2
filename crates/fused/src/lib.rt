// Both walks and the reading in one. No function stands here: the definition is in specs/, its law in proofs/.

#![tactic(auto)]
