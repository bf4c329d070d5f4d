// The list of faces and holes of a chart (document 01, "Faces, holes and area"), written into two lent arrays. What the
// walks of a chart come to is the crate cycles; what cycles and faces are, the crate walks.
#![tactic(auto)]

ghost use Rattle.std.specs.Prelude.{◌≡◌, true, ◌&&◌, ◌++◌, ◌+◌, ◌*◌, ◌≤◌, ◌<◌, eqb, length, drop};
ghost use Rattle.counts.specs.Count.{count, places};
ghost use Rattle.record.specs.Records.{record_count};
ghost use Rattle.chart.specs.Verdicts.{limit};
ghost use Rattle.chart.specs.Regions.{Region};
ghost use Rattle.walks.specs.Cycles.{start_of, first_of, is_first, cycle_count};
ghost use Rattle.walks.specs.Faces.{first_outer, face_number, face_of};
ghost use Rattle.faces.specs.declared.FaceRefusal.TheVariants.{Chart};
ghost use Rattle.faces.specs.Lists.{kind_of, labels_of, cycle_list, told_listing, Lists};
ghost use Rattle.faces.specs.Steps.{WalkFaces, Numbered, outer_place, with_cycle, SoundLists};

pub mod answer;

pub use answer::FaceCounts;
use chart::{ChartRefusal, Refusal};
use cycles::cycles_of;
use record::{MARKED, record_at, record_count};
use std::marker::Model;

// Why none were listed: the array is no chart, or a lent array is too short.
#[derive(Clone, Copy, Debug, PartialEq, Eq)]
pub enum FaceRefusal {
    Chart(ChartRefusal),
    NoRoom,
}

impl From<ChartRefusal> for FaceRefusal {
    ghost from_gives = { λ r e. e ≡ Chart r };

    fn from(r: ChartRefusal) -> FaceRefusal {
        FaceRefusal::Chart(r)
    }
}

impl From<FaceRefusal> for Refusal {
    ghost from_gives = { λ r e. e ≡ told_listing r };

    fn from(r: FaceRefusal) -> Refusal {
        match r {
            FaceRefusal::Chart(refusal) => Refusal::from(refusal),
            FaceRefusal::NoRoom => Refusal {
                number: 10,
                index: 0,
            },
        }
    }
}

// ---- a chart that is cut

// An accepted chart, and for each of its records where its walk starts and the first record of its cycle.
#[derive(Drop)]
struct Cut<'a> {
    chart: &'a [i16],
    starts: &'a [usize],
    firsts: &'a [usize],
}

impl<'a> Model for Cut<'a> {
    ghost use Rattle.std.specs.Prelude.{List, ℤ};
    ghost use Rattle.faces.specs.Known.{Known};

    ghost Value = { List ℤ };

    ghost view = { λ c. c.chart.now };

    ghost invariant = { λ c. Known c.chart.now c.starts.now c.firsts.now };
}

impl<'a> Cut<'a> {
    #[tactic(auto, using(crate::proofs::KnownLaws::known_region))]
    fn chart(&self) -> &[i16]
        ensures numbers { result.now ≡ self.now }
        ensures region { Region self.now }
    {
        self.chart
    }

    // How many records it has.
    fn len(&self) -> usize
        ensures value { result ≡ record_count self.now }
        ensures few { result ≤ limit }
    {
        record_count(self.chart())
    }

    // Where the walk of record i starts. A reader for each of the two arrays: one that is told which would be no
    // plainer. That i is a record of this chart is asked here and below, as cycles asks it.
    #[tactic(auto, using(crate::proofs::KnownLaws::told))]
    fn start(&self, i: usize) -> usize
        requires { i < record_count self.now }
        ensures value { result ≡ start_of self.now i }
        ensures bound { result < record_count self.now }
        ensures region { Region self.now }
    {
        let starts = self.starts;
        starts[i]
    }

    // The first record of the cycle of record i.
    #[tactic(auto, using(crate::proofs::KnownLaws::told))]
    fn first(&self, i: usize) -> usize
        requires { i < record_count self.now }
        ensures value { result ≡ first_of self.now i }
        ensures bound { result < record_count self.now }
        ensures region { Region self.now }
    {
        let firsts = self.firsts;
        firsts[i]
    }

    // ---- cycles

    fn is_first(&self, i: usize) -> bool
        requires { i < record_count self.now }
        ensures { result ≡ is_first self.now i }
    {
        self.first(i) == i
    }

    // How many of the first n records are the first of their cycle. A loop and no chain: `Numbered` says that the count
    // fits, and of a chain's count that is a second function and a proof of its own.
    #[tactic(auto, using(counts::proofs::StepLaws::summing, crate::proofs::NumberLaws::firsts_numbered))]
    fn count_firsts(&self, n: usize) -> usize
        requires { n ≤ record_count self.now }
        ensures { Numbered self.now (count (is_first self.now) (places n)) result }
    {
        let mut m = 0;
        for i in 0..n {
            if self.is_first(i) {
                m += 1;
            }
        }
        m
    }

    // ---- faces

    // Whether record i is the first of an outer cycle: the first record of a cycle has mark 1 exactly if the cycle is
    // outer.
    #[tactic(auto, using(crate::proofs::KnownLaws::first_marked), unfolding(grid::specs::Coordinates::up))]
    fn is_first_outer(&self, i: usize) -> bool
        requires { i < record_count self.now }
        ensures { result ≡ first_outer self.now i }
    {
        let r = record_at(self.chart(), i);
        self.is_first(i) && r.mark == MARKED
    }

    // How many of the first n records are the first of an outer cycle; a loop for the same reason.
    #[tactic(auto, using(counts::proofs::StepLaws::summing, crate::proofs::NumberLaws::outers_numbered))]
    fn count_outers(&self, n: usize) -> usize
        requires { n ≤ record_count self.now }
        ensures { Numbered self.now (face_number self.now n) result }
    {
        let mut m = 0;
        for i in 0..n {
            if self.is_first_outer(i) {
                m += 1;
            }
        }
        m
    }

    // Whether record i is the first of an outer cycle of the walk that starts at w.
    fn is_outer_in(&self, w: usize, i: usize) -> bool
        requires { i < record_count self.now }
        ensures { result ≡ first_outer self.now i && eqb (start_of self.now i) w }
    {
        self.is_first_outer(i) && self.start(i) == w
    }

    // The first record of the outer cycle of the walk that starts at w.
    fn outer_in(&self, w: usize) -> Option<usize>
        ensures { result ≡ outer_place self.now w }
    {
        (0..self.len()).find(|&i| self.is_outer_in(w, i))
    }

    // The face of the walk that starts at w: that of its outer cycle; else that of the walk of the segment nearest
    // below its smallest point, which starts earlier. `faces` goes beside the cut with a clause of its own: here, while
    // it is being filled, it holds the walks before w alone, and a second type for when it is full would be made in one
    // place and be no plainer.
    #[tactic(auto, using(crate::proofs::Sets::below))]
    fn face_in_walk(&self, faces: &[usize], w: usize) -> usize
        requires known { WalkFaces self.now w faces.now }
        requires starting { (w < record_count self.now) × (start_of self.now w ≡ w) }
        ensures { result ≡ face_of self.now w }
    {
        let r = record_at(self.chart(), w);
        if let Some(o) = self.outer_in(w) {
            return self.count_outers(o);
        }
        let below = nearest::highest_below(self.chart(), r.dom);
        faces[self.start(below)]
    }

    #[tactic(auto, using(crate::proofs::Sets::filling))]
    fn fill_faces(&self, faces: &mut [usize])
        requires { record_count self.now ≤ length faces.old }
        ensures { WalkFaces self.now (record_count self.now) faces.new }
    {
        for w in 0..self.len() {
            if self.start(w) == w {
                let face = self.face_in_walk(faces, w);
                faces[w] = face;
            }
        }
    }

    // ---- writing

    #[tactic(auto, using(crate::proofs::Sets::labelling))]
    fn write_labels(&self, labels: &mut [u16])
        requires { record_count self.now ≤ length labels.old }
        ensures { labels.new ≡ labels_of self.now ++ drop (record_count self.now) labels.old }
    {
        for i in 0..self.len() {
            let number = self.count_firsts(self.first(i));
            labels[i] = number as u16;
        }
    }

    // 0 for an outer cycle or 1 for a hole, as the lent array has it: by the cycle's first record.
    fn kind_of(&self, i: usize) -> u16
        requires known { i < record_count self.now }
        requires first { is_first self.now i ≡ true }
        ensures { result ≡ kind_of self.now i }
    {
        if self.is_first_outer(i) { 0 } else { 1 }
    }

    // The face of the cycle of record i: that of its walk.
    #[tactic(auto, using(crate::proofs::FillLaws::cycle_face))]
    fn face_of(&self, faces: &[usize], i: usize) -> usize
        requires known { WalkFaces self.now (record_count self.now) faces.now }
        requires there { i < record_count self.now }
        ensures number { Numbered self.now (face_of self.now i) result }
        ensures small { result ≤ limit }
    {
        faces[self.start(i)]
    }

    // The two numbers of the cycle whose first record is i become those of cycle m of the array.
    fn put_cycle(&self, faces: &[usize], i: usize, cycles: &mut [u16], m: usize)
        requires known { WalkFaces self.now (record_count self.now) faces.now }
        requires first { (i < record_count self.now) × (is_first self.now i ≡ true) }
        requires room { 2 * m + 2 ≤ length cycles.old }
        ensures { cycles.new ≡ with_cycle self.now i cycles.old m }
    {
        let face = self.face_of(faces, i);
        cycles[2 * m] = self.kind_of(i);
        cycles[2 * m + 1] = face as u16;
    }

    // The two numbers of each cycle. m counts what is written: there may be fewer cycles than records.
    #[tactic(auto, using(crate::proofs::Sets::entering))]
    fn write_cycles(&self, faces: &[usize], cycles: &mut [u16])
        requires known { WalkFaces self.now (record_count self.now) faces.now }
        requires room { 2 * cycle_count self.now ≤ length cycles.old }
        ensures { cycles.new ≡ cycle_list self.now ++ drop (2 * cycle_count self.now) cycles.old }
    {
        let mut m = 0;
        for i in 0..self.len() {
            if self.is_first(i) {
                self.put_cycle(faces, i, cycles, m);
                m += 1;
            }
        }
    }

    // The whole list. Nothing is written before it is known that all of it can be.
    #[tactic(auto, using(crate::proofs::Sets::listing))]
    fn list(&self, labels: &mut [u16], cycles: &mut [u16]) -> Result<FaceCounts, FaceRefusal>
        ensures { SoundLists self.now labels.old cycles.old labels.new cycles.new result }
    {
        let n = self.len();
        let m = self.count_firsts(n);
        if labels.len() < n || cycles.len() < 2 * m {
            return Err(FaceRefusal::NoRoom);
        }
        let mut faces = [0usize; 512];
        self.fill_faces(&mut faces);
        self.write_labels(labels);
        self.write_cycles(&faces, cycles);
        Ok(FaceCounts {
            cycles: m,
            faces: self.count_outers(n),
        })
    }
}

// ---- the list

// The faces and holes of a chart: the cycle number of each record into the first array, two numbers per cycle into the
// second.
pub fn faces(
    chart: &[i16],
    labels: &mut [u16],
    cycles: &mut [u16],
) -> Result<FaceCounts, FaceRefusal>
    ensures { Lists chart.now labels.old cycles.old labels.new cycles.new result }
{
    let c = cycles_of(chart)?;
    let cut = Cut {
        chart,
        starts: &c.starts,
        firsts: &c.firsts,
    };
    cut.list(labels, cycles)
}
