// What a circuit block is, for every layer above: specs/ holds the definitions, and there is no code.
#![tactic(auto)]
