// What a whole call of the report is lent, answers and leaves: definitions in specs/, laws in proofs/, no code.
#![tactic(auto)]
