// What is promised of whole calls of the report, and worked calls, computed over the definitions: no code.
#![tactic(auto)]
