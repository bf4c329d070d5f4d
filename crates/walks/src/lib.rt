// No code: how a chart is walked, the cycles that its walks are cut into, and the faces that these bound.
#![tactic(auto)]
