// What a ruling does not depend on: an acceptance that no step asks for, and a member's code and limit (demand 3), on rulings, in
// bytes and on sheets. No code: definitions and laws about the floors below.
#![tactic(auto)]
