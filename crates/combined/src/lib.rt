// What charts combined are, and demand 3's second part: no function. The definitions are in specs/, the theorem in
// proofs/; the crate join computes it of two.
#![tactic(auto)]
