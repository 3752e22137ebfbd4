// What is proved of the text of a case (specs/Filed.antt): the reader finds the case's script in it, and its assertions are true of an
// assignment exactly where the rows of the table hold; there is no code here.
#![tactic(auto)]
