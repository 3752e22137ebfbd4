// Reading a text of SMT-LIB that was written gives its script back: which scripts the spelling can hold is in specs/, and that each of
// them is read from its text is `read_back` of proofs/Scripts.antt. There is no code here.
#![tactic(auto)]
