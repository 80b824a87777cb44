// The three demands as statements, each proved of the definitions that the calls' contracts cite. A reader starts here.
#![tactic(auto)]
