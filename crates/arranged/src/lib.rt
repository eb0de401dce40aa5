// Entries in order, equal ones in order of arrival: there is one such arrangement, and putting an entry in gives it. No code.
#![tactic(auto)]
