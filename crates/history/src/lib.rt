#![tactic(auto)]
// Histories of any machine on a line: definitions in specs/, theorems in proofs/, no code.
