// A sheet and the same cases in another order (RULE R12.4): the same judgements in that order, and the same counts. No code.
#![tactic(auto)]
