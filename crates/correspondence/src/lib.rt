// Theorems about the definitions of `model`; there is no code here. The statement of demand 3 is specs/Demand3.antt.
#![tactic(auto)]
