// The order of a batch's rows moves neither a file's record nor a row's aligned time. There is no code here: specs/
// says what is supposed and claimed, proofs/ proves it.
#![tactic(auto)]
