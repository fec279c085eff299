// Edits of a list of rows. There is no code here: specs/Edits.antt says what they do, proofs/Edits.antt what they keep.
#![tactic(auto)]
