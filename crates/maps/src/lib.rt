// The finite map that lookup reads, and what a commit does to it: definitions in specs/, laws in proofs/. Nothing here runs.
#![tactic(auto)]
