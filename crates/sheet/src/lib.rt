// Layout sheets: a line judged by itself and the lines before it, a whole sheet, and its first faulty line. Definitions in specs/, laws in proofs/, no code.
#![tactic(auto)]
