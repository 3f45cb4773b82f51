// The ranges of the numbers of every plan: theorems only, no code.
#![tactic(auto)]
