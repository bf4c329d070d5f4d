// A chart that was judged: what holds a `Chart` needs no check of its own.
ghost use Rattle.std.specs.Prelude.{◌≡◌, ◌≤◌, true, List, ℤ};
ghost use Rattle.std.specs.Borrow.{Bor};
ghost use Rattle.record.specs.Records.{record_count};
ghost use Rattle.chart.specs.Verdicts.{limit, verdict, accepted, answered};
ghost use Rattle.chart.specs.Regions.{Region};

use crate::{ChartRefusal, check};
use std::marker::Model;

// The numbers of an accepted chart, as the slice that was judged: a contract sees the numbers and where they lie. It
// can be made by the check alone. Not Copy: no type with a model and a lifetime can be.
#[derive(Drop)]
pub struct Chart<'a> {
    numbers: &'a [i16],
}

impl<'a> Model for Chart<'a> {
    ghost Value = { Bor (List ℤ) };

    ghost view = { λ c. c.numbers };

    ghost invariant = { λ c. accepted c.numbers.now ≡ true };
}

impl<'a> Chart<'a> {
    // The chart that the numbers are, where they are one.
    pub fn new(numbers: &'a [i16]) -> Result<Chart<'a>, ChartRefusal>
        ensures { result ≡ answered (verdict numbers.now) numbers.entry }
    {
        check(numbers)?;
        Ok(Chart { numbers })
    }

    // Its numbers, the very slice that was judged, to be read without another look whether they are a chart.
    #[tactic(auto, using(crate::proofs::RegionLaws::accepted_region))]
    pub fn numbers(&self) -> &'a [i16]
        ensures same { result ≡ self.now }
        ensures sound { accepted self.now.now ≡ true }
        ensures region { Region self.now.now }
    {
        self.numbers
    }

    #[tactic(auto, using(crate::proofs::RegionLaws::accepted_short))]
    pub fn record_count(&self) -> usize
        ensures is { result ≡ record_count self.now.now }
        ensures few { result ≤ limit }
    {
        record::record_count(self.numbers)
    }
}
