// What became of a case when a second kind of case came (RULE R12.8, R12.9): one of kind 1 is answered as it was before, and one of kind 2 as one
// of kind 1 with the same facts, or without their quotes where these are too wide to trust. No code.
#![tactic(auto)]
