// The one statement about all the calls, specs/Delivered.antt, and its proof; there is no code here.
#![tactic(auto)]
