// What the 64 bits of a double are worth, the double nearest to a number, and the way to an int and back. Definitions in specs/, laws in proofs/, no code.
#![tactic(auto)]
