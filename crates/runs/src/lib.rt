// No code: what a whole script prints, however it comes.
#![tactic(auto)]
