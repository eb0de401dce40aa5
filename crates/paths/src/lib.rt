// Streams compared, and the mathematics of the search for the shortest one. No code.
#![tactic(auto)]
