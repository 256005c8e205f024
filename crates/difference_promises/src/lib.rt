// What is promised of comparing two logs, over whole calls. Statements in specs/, theorems in proofs/, no code.
#![tactic(auto)]
