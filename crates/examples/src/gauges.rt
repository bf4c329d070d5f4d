// The gauges of the bench examples.
use crate::answer;
use crate::answer::Answer;
use chart::Refusal;
use gauge::Card;

pub(crate) fn say_samples() {
    let samples = [
        ("gain 2, zero 0, sample 16383", bridge(2.0, 0.0), 16383),
        ("gain 2, zero 0, sample 16384", bridge(2.0, 0.0), 16384),
        ("gain 1, zero 1, sample -32768", bridge(1.0, 1.0), -32768),
        ("gain 0.5, zero 0, sample -1", bridge(0.5, 0.0), -1),
        ("rate 1, pin 1000, sample 999", spring(1.0, 1000.0), 999),
        ("rate 1, pin 1000, sample 1000", spring(1.0, 1000.0), 1000),
    ];
    for (name, card, sample) in samples {
        answer::say(name, reading_of(card, sample));
    }
}

fn bridge(gain: f64, zero: f64) -> Card {
    Card::Bridge { gain, zero }
}

fn spring(rate: f64, pin: f64) -> Card {
    Card::Spring { rate, pin }
}

fn reading_of(card: Card, sample: i16) -> Result<Answer, Refusal> {
    match gauge::read_sample(card, sample) {
        Ok(reading) => Ok(Answer::Row {
            row: reading.row,
            pressure: reading.pressure.to_bits(),
        }),
        Err(e) => Err(Refusal {
            number: e.number(),
            index: 0,
        }),
    }
}
