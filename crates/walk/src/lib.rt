// The walk of the scope (§5): definitions and theorems alone, no code.
#![tactic(auto)]
