// What is proved of the answers. No function stands here: the statements are in specs/, the proofs in proofs/.

#![tactic(auto)]
