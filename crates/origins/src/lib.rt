// The event that made each tuple: definitions and their law, no code.
#![tactic(auto)]
