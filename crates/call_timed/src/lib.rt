// Timed sheets: definitions and laws alone.
#![tactic(auto)]
