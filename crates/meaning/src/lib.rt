// What cleaning does to a program, what it reports, and what a run of a program is: definitions and theorems.
#![tactic(auto)]
