// Document 01's bench examples, run: a line each, what is asked and the answer. The gate compares the lines with the
// file stdout. (Every refusal, at every record and two at once, is the judge's to ask: rust/judge.)
#![tactic(auto)]

mod answer;
mod charts;
mod gauges;

fn main() {
    charts::say_areas();
    charts::say_places();
    charts::say_joinings();
    gauges::say_samples();
}
