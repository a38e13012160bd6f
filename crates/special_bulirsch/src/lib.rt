// Bulirsch's general complete elliptic integral, without the tests of its domain. Arguments stay as the papers write them, one by one.
#![tactic(auto)]

ghost use Rattle.std.specs.Prelude.{◌≡◌};
ghost use Rattle.special_bulirsch.specs.Bulirsch.{first_half, second_half, turn, cel_test, cel_end, cel_of};

// The Rust's loop ends after 64 rounds and refuses nothing. The first half of its first round
// stands before this one.
const MAX_TURNS: u32 = 63;

// Bulirsch's k_c, e, m, p, a and b, and the m before.
#[derive(Clone, Copy)]
pub struct Bulirsch {
    pub kc: f64,
    pub e: f64,
    pub m: f64,
    pub previous: f64,
    pub p: f64,
    pub a: f64,
    pub b: f64,
}

// The first half of a round.
#[tactic(auto, unfolding(crate::specs::Bulirsch::first_half))]
fn first_half(s: Bulirsch) -> Bulirsch
    ensures { result ≡ first_half s }
{
    let g = s.e / s.p;
    Bulirsch {
        kc: s.kc,
        e: s.e,
        m: s.m + s.kc,
        previous: s.m,
        p: s.p + g,
        a: s.a + s.b / s.p,
        b: 2.0 * (s.b + s.a * g),
    }
}

// The second half.
#[tactic(auto, unfolding(crate::specs::Bulirsch::second_half))]
fn second_half(s: Bulirsch) -> Bulirsch
    ensures { result ≡ second_half s }
{
    let k = 2.0 * roots::root(s.e);
    Bulirsch {
        kc: k,
        e: k * s.m,
        ..s
    }
}

// The second half of a round and the first of the next.
#[tactic(auto, unfolding(crate::specs::Bulirsch::turn))]
fn turn(s: Bulirsch) -> Bulirsch
    ensures { result ≡ turn s }
{
    first_half(second_half(s))
}

#[tactic(auto, unfolding(crate::specs::Bulirsch::cel_test))]
fn cel_test(s: Bulirsch) -> bool
    ensures { result ≡ cel_test s }
{
    !(doubles::abs(s.previous - s.kc) <= s.previous * 1e-15)
}

#[tactic(auto, unfolding(crate::specs::Bulirsch::cel_end))]
fn cel_end(s: Bulirsch) -> f64
    ensures { result ≡ cel_end s }
{
    doubles::FRAC_PI_2 * (s.a * s.m + s.b) / (s.m * (s.m + s.p))
}

// cel without the tests of its domain: what inner calls use.
pub fn cel_of(kc: f64, p: f64, a: f64, b: f64) -> f64
    ensures { result ≡ cel_of kc p a b }
{
    let k = doubles::abs(kc);
    let sp = roots::root(p);
    let first = first_half(Bulirsch {
        kc: k,
        e: k,
        m: 1.0,
        previous: 1.0,
        p: sp,
        a,
        b: b / sp,
    });
    cel_end(carlson::repeat(MAX_TURNS, cel_test, turn, first))
}
