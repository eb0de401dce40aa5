// A record as a list of whole sections: definitions, and laws over them. No code.
#![tactic(auto)]
