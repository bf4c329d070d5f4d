// An answer, and how it is said.
use arrayvec::ArrayString;
use chart::Refusal;
use question::Place;
use std::fmt;
use std::fmt::Write;

// More letters than any line has: a name has 32 at most, an answer 42, and a line its end.
const LINE: usize = 80;

#[derive(Clone, Copy, Debug, PartialEq, Eq)]
pub(crate) enum Answer {
    Area(i64),
    Place(Place),
    Records(usize),
    // A pressure is told by its bits.
    Row { row: i16, pressure: u64 },
}

// A word to the ninth column, or to the eighth and then a number.
impl fmt::Display for Answer {
    fn fmt<W: fmt::Write>(&self, f: &mut fmt::Formatter<W>) -> fmt::Result {
        match self {
            Answer::Area(z) => write!(f, "   area2 {z}"),
            Answer::Place(Place::Outside) => f.write_str("  Outside"),
            Answer::Place(Place::Inside) => f.write_str("   Inside"),
            Answer::Place(Place::Edge) => f.write_str("     Edge"),
            Answer::Records(n) => write!(f, " records {n}"),
            Answer::Row { row, pressure } => write!(f, "     row {row}, pressure {pressure:016x}"),
        }
    }
}

// A line, what is asked and the answer. It goes out by the kit's `io`, so that nothing of the C library stands under it
// but `write`. What standard output does not take of it is lost, and the program goes on.
pub(crate) fn say(name: &str, answer: Result<Answer, Refusal>) {
    let mut line = ArrayString::<LINE>::new();
    let _ = match answer {
        Ok(answer) => writeln!(line, "{name:<32}{answer}"),
        Err(Refusal { number, index }) => writeln!(line, "{name:<32} refusal {number} at {index}"),
    };
    io::write_all(1, line.as_str().as_bytes());
}
