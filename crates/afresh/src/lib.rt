// Records added one after another give the index that is built afresh: a theorem over the definitions. No code.
#![tactic(auto)]
