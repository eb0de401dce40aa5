// The shortest stream, shown from the rules of the search. No code.
#![tactic(auto)]
