// Demand 3, proved over the definitions of the plan: all of it stands in specs.
#![tactic(auto)]
