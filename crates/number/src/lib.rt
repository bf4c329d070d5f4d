// One number of a chart file: groups of seven bits, lowest first, a byte each.
#![tactic(auto)]

ghost use Rattle.std.specs.Prelude.{◌≡◌};
ghost use Rattle.number.specs.Numbers.{bits, told, number_at, signed};

use chart::Refusal;

// Why there is no number, with the place of its first byte.
#[derive(Clone, Copy, Debug, PartialEq, Eq)]
pub enum NumberRefusal {
    // 31: the bytes end inside the number or before it.
    Ends(usize),
    // 32: a third group that goes on, or a last group of zero after another.
    Overlong(usize),
}

impl From<NumberRefusal> for Refusal {
    ghost from_gives = { λ r e. e ≡ told r };

    fn from(r: NumberRefusal) -> Refusal {
        match r {
            NumberRefusal::Ends(index) => Refusal { number: 31, index },
            NumberRefusal::Overlong(index) => Refusal { number: 32, index },
        }
    }
}

// The high bit of a byte, set where another group follows; without it, its seven bits.
const HIGH: u8 = 128;

fn bits_of(b: u8) -> u32
    ensures { result ≡ bits b }
{
    (b % HIGH) as u32
}

// The number at the place `at` of a file, and the place after it. A last group of zero adds nothing: there is a
// shorter form.
#[tactic(auto, using(crate::proofs::GroupLaws::grouping))]
pub fn take_number(bytes: &[u8], at: usize) -> Result<(u32, usize), NumberRefusal>
    ensures { result ≡ number_at bytes.now at }
{
    let a = *bytes.get(at).ok_or(NumberRefusal::Ends(at))?;
    if a < HIGH {
        return Ok((bits_of(a), at + 1));
    }
    let b = *bytes.get(at + 1).ok_or(NumberRefusal::Ends(at))?;
    if b < HIGH {
        if b == 0 {
            return Err(NumberRefusal::Overlong(at));
        }
        return Ok((bits_of(a) + 128 * bits_of(b), at + 2));
    }
    let c = *bytes.get(at + 2).ok_or(NumberRefusal::Ends(at))?;
    match c {
        0 | HIGH.. => Err(NumberRefusal::Overlong(at)),
        _ => Ok((bits_of(a) + 128 * bits_of(b) + 16384 * bits_of(c), at + 3)),
    }
}

// The signed number that n stands for.
#[tactic(auto, unfolding(crate::specs::Numbers::signed))]
pub fn signed_of(n: u32) -> i64
    ensures { result ≡ signed n }
{
    let half = (n / 2) as i64;
    if n % 2 == 0 {
        return half;
    }
    -1 - half
}
