// What is promised of asking which bits of the source show, over whole calls. Statements in specs/, theorems in proofs/, no code.
#![tactic(auto)]
