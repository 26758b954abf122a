// No code: the examples that document 01 stars stand in specs/Starred.antt, and what source 000 works out beside them in specs/Worked.antt.

#![tactic(auto)]
