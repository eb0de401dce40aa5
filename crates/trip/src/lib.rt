// The reader gives back what the writer writes: a theorem over the definitions.
#![tactic(auto)]
