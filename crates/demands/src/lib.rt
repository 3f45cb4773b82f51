// The demands on the planner, over any list of its steps and over a whole run: theorems only, no code.
#![tactic(auto)]
