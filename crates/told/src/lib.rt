// What the rows of a ruled case tell with a place in the record stands at that place, and the figures that are told are those of the ruling. No code: definitions and laws
// about the floors below.
#![tactic(auto)]
