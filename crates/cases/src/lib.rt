// Records that the definitions of the plan are held to: all of it stands in specs.
#![tactic(auto)]
