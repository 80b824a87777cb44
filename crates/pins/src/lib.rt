// Values that pin the definitions, computed by the prover: images in full, refusals, and single numbers. Nothing here runs.
#![tactic(auto)]
