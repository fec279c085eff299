// How contracts name slices. There is no code here: specs/Slice.antt has the names.
#![tactic(auto)]
