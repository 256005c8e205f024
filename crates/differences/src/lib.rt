// Where two logs differ: when two matched numbers are the same, the list of those that are not, and a whole call. Definitions in specs/, laws in proofs/, no code.
#![tactic(auto)]
