// No code: what a chart's boundaries say of a point and of a segment, and why the nearest one's mark is enough.
#![tactic(auto)]
