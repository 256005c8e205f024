// A whole call that asks which bits of a source record a conversion can turn on: definitions in specs/, laws in proofs/, no code.
#![tactic(auto)]
