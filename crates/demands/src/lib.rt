// What the desk promises its people, stated in specs/ in plain sight and proved there from the floors below. No code.
#![tactic(auto)]
