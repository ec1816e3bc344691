#![tactic(auto)]
// The buyer's conditions as theorems: no code.
