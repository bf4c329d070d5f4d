// No code: what the library promises, cited in one place. proofs/Demands.antt is the page to open first.
#![tactic(auto)]
