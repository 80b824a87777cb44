// The mathematics of a table with linear probing: definitions in specs/, laws in proofs/. Nothing here runs.
#![tactic(auto)]
