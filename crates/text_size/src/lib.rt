// How long the text of a case is at the most (proofs/Text.antt); there is no code here.
#![tactic(auto)]
