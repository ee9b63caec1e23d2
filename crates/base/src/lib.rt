// What every floor uses: definitions and laws in specs/, no code.
#![tactic(auto)]
