// Document 01's P examples. There is no code here: specs/Examples.antt has the list, proofs/Examples.antt the theorem
// that walks it.
#![tactic(auto)]
