// Counting: what every rule of a chart is told by. Definitions in specs/, laws in proofs/; no function.
#![tactic(auto)]
