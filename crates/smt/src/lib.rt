// SMT-LIB text: the terms and formulas of QF_BV that a case's text is made of, with SMT-LIB's meaning; how they are spelled; and a
// reader of the spelling. There is no code here: what a reader must believe of the text is in specs/.
#![tactic(auto)]
