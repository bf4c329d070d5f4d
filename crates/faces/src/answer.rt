// What is answered where the faces of a chart are listed.
ghost use Rattle.std.specs.Prelude.{◌≤◌};

// How many cycles were listed, and how many faces they bound: each face has one outer cycle, so that whoever takes the
// faces from the cycles, for the number of holes, need not ask.
#[derive(Clone, Copy, Debug, PartialEq, Eq)]
pub struct FaceCounts {
    pub cycles: usize,
    pub faces: usize,
    pub ghost within: { faces ≤ cycles },
}
