// Document 01's worked examples and its decimal constants, computed by the checker: they stand in specs/, what is said of them in
// proofs/, and no code belongs to them.
#![tactic(auto)]
