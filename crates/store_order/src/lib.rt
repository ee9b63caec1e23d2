// The order in which the counts of the ranges stand in a store: definitions and laws alone.
#![tactic(auto)]
