// A case written and read again, read and written again (RULE R13.0.2): the same facts, the same bytes. No code.
#![tactic(auto)]
