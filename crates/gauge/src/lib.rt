// Gauges (document 01, "Gauges"): a card and a sample, to the exact pressure and its grid row, or a numbered refusal.
#![tactic(auto)]

ghost use Rattle.std.specs.Prelude.{◌≡◌, ◌<◌, true, false, ◌||◌, pos, ◌-ℤ◌, ◌*ℤ◌, int_le, int_lt, IfOk, IfErr, OnErr};
ghost use Rattle.counts.specs.Scan.{any_place};
ghost use Rattle.gauge.specs.declared.GaugeRefusal.TheVariants.{BrokenRule};
ghost use Rattle.gauge.specs.Values.{units, Exactly};
ghost use Rattle.gauge.specs.Cards.{powers, is_power, is_factor, is_pin, is_zero, sound};
ghost use Rattle.gauge.specs.Readings.{pressure, row, at_pin, number_of, handed, Gauges};
ghost use Rattle.gauge.specs.Steps.{count_of, Whole};

use grid::Coord;

// A gauge card.
#[derive(Clone, Copy, Debug, PartialEq)]
pub enum Card {
    Spring { rate: f64, pin: f64 },
    Bridge { gain: f64, zero: f64 },
}

// A pressure, and the grid row it lies on.
#[derive(Clone, Copy, Debug, PartialEq)]
pub struct Reading {
    pub pressure: f64,
    pub row: i16,
}

// Why a sample is not read.
#[derive(Clone, Copy, Debug, PartialEq, Eq)]
pub enum GaugeRefusal {
    // 21: the card breaks a rule.
    BrokenRule,
    // 22: a spring's sample is negative, or its pressure at or past the pin.
    AtPin,
    // 23: the row would leave the grid.
    OffGrid,
}

impl GaugeRefusal {
    // A method and no `From`: what a refusal becomes for C, `Refusal`, is chart's, and no chart is known here.
    pub fn number(self) -> u16
        ensures { result ≡ number_of self }
    {
        match self {
            GaugeRefusal::BrokenRule => 21,
            GaugeRefusal::AtPin => 22,
            GaugeRefusal::OffGrid => 23,
        }
    }
}

// What is handed back of a sample: its reading, zero and row 0 where it is refused.
pub fn handed(g: Result<Reading, GaugeRefusal>) -> Reading
    ensures { result ≡ handed g }
{
    g.unwrap_or(Reading {
        pressure: 0.0,
        row: 0,
    })
}

// How many powers of two a rate or a gain may be: from 1/256 to 256.
const POWERS: u64 = 17;

// ---- a float in 256ths

// A multiple of 1/256 from -65,536 to 65,536, in 256ths. A NaN fails both comparisons. Times 256 is exact, and the
// whole part, as a float again, is that product only where nothing was cut off.
#[tactic(auto, using(crate::proofs::Tactics::cuts))]
fn count_of(x: f64) -> Option<i64>
    ensures { result ≡ count_of x }
{
    if x >= -65536.0 && x <= 65536.0 {
        let scaled = x * 256.0;
        let count = std::num::truncating_f64_to_i64(scaled);
        if std::num::nearest_i64_to_f64(count) == scaled {
            return Some(count);
        }
    }
    None
}

// ---- 21: the card breaks a rule

fn is_power(n: u64, k: u64) -> bool
    requires { k < powers }
    ensures { result ≡ is_power n k }
{
    n == (1 << k)
}

fn is_some_power(n: u64) -> bool
    ensures { result ≡ any_place (is_power n) (λ k. k) powers }
{
    (0..POWERS).any(|k| is_power(n, k))
}

// Whether it may be a rate or a gain.
#[tactic(auto, using(crate::proofs::Tactics::factor_counts))]
fn is_factor(x: f64) -> bool
    ensures { result ≡ is_factor x }
{
    count_of(x).is_some_and(|n| 0 <= n && is_some_power(n as u64))
}

#[tactic(auto, using(crate::proofs::Tactics::pin_counts))]
fn is_pin(x: f64) -> bool
    ensures { result ≡ is_pin x }
{
    count_of(x).is_some_and(|n| 1 <= n)
}

#[tactic(auto, unfolding(crate::specs::Steps::count_of))]
fn is_zero(x: f64) -> bool
    ensures { result ≡ is_zero x }
{
    count_of(x).is_some()
}

#[tactic(auto, unfolding(crate::specs::Cards::sound))]
fn is_sound(card: Card) -> bool
    ensures { result ≡ sound card }
{
    match card {
        Card::Spring { rate, pin } => is_factor(rate) && is_pin(pin),
        Card::Bridge { gain, zero } => is_factor(gain) && is_zero(zero),
    }
}

// A card that keeps the rules; it is never compared.
#[derive(Clone, Copy)]
struct SoundCard {
    card: Card,
    ghost kept: { sound card ≡ true },
}

impl SoundCard {
    fn new(card: Card) -> Result<SoundCard, GaugeRefusal>
        ensures same { IfOk result (λ s. s.card ≡ card) }
        ensures why { IfErr result (λ e. e ≡ BrokenRule) }
        ensures broken { OnErr result (sound card ≡ false) }
    {
        if is_sound(card) {
            Ok(SoundCard { card })
        } else {
            Err(GaugeRefusal::BrokenRule)
        }
    }
}

// ---- the pressure, by the floats' own operations, which are exact here

#[tactic(auto, using(crate::proofs::Tactics::products))]
fn product(sample: i16, factor: f64) -> f64
    requires { is_factor factor ≡ true }
    ensures { Exactly result (sample *ℤ units factor) }
{
    (sample as f64) * factor
}

#[tactic(auto, using(crate::proofs::Tactics::differences))]
fn difference(sample: i16, gain: f64, zero: f64) -> f64
    requires sound_gain { is_factor gain ≡ true }
    requires sound_zero { is_zero zero ≡ true }
    ensures { Exactly result (sample *ℤ units gain -ℤ units zero) }
{
    product(sample, gain) - zero
}

#[tactic(auto, using(crate::proofs::Tactics::pressures), unfolding(crate::specs::Readings::pressure))]
fn pressure_of(sound: SoundCard, sample: i16) -> f64
    ensures { Exactly result (pressure sound.card sample) }
{
    match sound.card {
        Card::Spring { rate, pin } => product(sample, rate),
        Card::Bridge { gain, zero } => difference(sample, gain, zero),
    }
}

// ---- 22: at the pin

#[tactic(auto, using(crate::proofs::Tactics::pasts))]
fn is_past(sample: i16, p: f64, pin: f64) -> bool
    requires exact { Exactly p (units p) }
    requires sound_pin { is_pin pin ≡ true }
    ensures { result ≡ (int_lt sample (pos 0) || int_le (units pin) (units p)) }
{
    sample < 0 || p >= pin
}

#[tactic(auto, using(crate::proofs::Tactics::pins), unfolding(crate::specs::Readings::at_pin))]
fn is_at_pin(sound: SoundCard, sample: i16, p: f64) -> bool
    requires exact { Exactly p (pressure sound.card sample) }
    ensures { result ≡ at_pin sound.card sample }
{
    match sound.card {
        Card::Spring { pin, .. } => is_past(sample, p, pin),
        Card::Bridge { .. } => false,
    }
}

// ---- 23: the row would leave the grid

// The row of a pressure, wider than the grid, so that it cannot wrap. The one place that drops a fraction.
#[tactic(auto, using(crate::proofs::Tactics::rows), unfolding(crate::specs::Readings::row))]
fn row_of(p: f64) -> i64
    requires { Whole p }
    ensures { result ≡ row (units p) }
{
    std::num::truncating_f64_to_i64(p)
}

// ---- the sample

// A sample by a sound card.
#[tactic(auto, using(crate::proofs::Tactics::reads))]
fn read_sound(sound: SoundCard, sample: i16) -> Result<Reading, GaugeRefusal>
    ensures { Gauges sound.card sample result }
{
    let p = pressure_of(sound, sample);
    if is_at_pin(sound, sample, p) {
        return Err(GaugeRefusal::AtPin);
    }
    match Coord::of_wide(row_of(p)) {
        Some(c) => Ok(Reading {
            pressure: p,
            row: c.v,
        }),
        None => Err(GaugeRefusal::OffGrid),
    }
}

// Turns a sample into a pressure and a grid row.
#[tactic(auto, using(crate::proofs::ReadingLaws::broken))]
pub fn read_sample(card: Card, sample: i16) -> Result<Reading, GaugeRefusal>
    ensures { Gauges card sample result }
{
    let sound = SoundCard::new(card)?;
    read_sound(sound, sample)
}
