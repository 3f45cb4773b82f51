// What holds of the strips of a copy plan: theorems only, no code.
#![tactic(auto)]
