// No code: which way a segment is walked, and what lies on the left hand of one who walks around the corners of a
// chart.
#![tactic(auto)]
