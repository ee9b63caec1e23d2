// The order of the counts before F-5, and the conversion of a store from it and back: definitions and laws alone.
#![tactic(auto)]
