// A theory crate: definitions and laws in specs/, no code.
#![tactic(auto)]
