// What is found fits a case; what a lookup does not depend on, what it answers with the number that is brought, and where its walk stops; a case filled
// (RULE R16.10 to R16.15, R16.20 to R16.25). No code.
#![tactic(auto)]
