// Records in blocks, leaf by leaf: what a column of a block becomes, and that columns one after the other make of each record what the plan makes of it. Definitions in specs/, laws in
// proofs/, no code.
#![tactic(auto)]
