// No code: demand 3 over lists of calls, its proof, and the examples.
#![tactic(auto)]
