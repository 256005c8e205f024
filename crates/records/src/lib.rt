// One leaf, one record and n records: what is read of them and what they become. Definitions in specs/, laws in proofs/, no code.
#![tactic(auto)]
