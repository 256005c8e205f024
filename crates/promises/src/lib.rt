// The exercises of document 01, computed over the definitions, and the promises over whole calls: no code.
#![tactic(auto)]
