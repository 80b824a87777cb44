// What a commit answers and does, and that what an accepted one leaves is sound: definitions in specs/, laws in proofs/. Nothing here runs.
#![tactic(auto)]
