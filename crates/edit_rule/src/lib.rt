// Demand 3: rows outside the training set can't move a fitted number or another row's result. There is no code here:
// specs/ says what the ends are and what is supposed and claimed of them, proofs/ proves it.
#![tactic(auto)]
