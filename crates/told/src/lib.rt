// Laws alone: every finding of an accepted sheet has a message (specs/Told.antt, proofs/Told.antt).

#![tactic(auto)]
