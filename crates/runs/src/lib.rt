// What a whole call of the four converting forms is: what it is lent, what it answers, and what every buffer holds afterwards. Definitions and laws, no code.
#![tactic(auto)]
