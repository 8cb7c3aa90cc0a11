// What a length of time is as a fraction, for every layer above: specs/ holds the definitions, and there is no code.
#![tactic(auto)]
