// What is promised of upgrading records by way of a third layout, over whole calls. Statements in specs/, theorems in proofs/, no code.
#![tactic(auto)]
