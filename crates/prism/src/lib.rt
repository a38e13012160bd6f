// The field of a rectangular prism, bisected where it is long and near.
#![tactic(auto)]

ghost use Rattle.std.specs.Prelude.{◌≡◌};
ghost use Rattle.prism.specs.Prism.{pieces, prism_at, numbers_within_limits, side_within_limits, sides_within_limits, cause_of, prism, prism_volume};

use newtonian::{Newtonian, Vector, add_fields, vector_within_limits};
use prism_corner_sums::Bounds;
use prism_pieces::{AxisRule, Piece};
use refusals::Refusal;

const MAX_BISECTIONS: u32 = 32;

// A side below this is refused.
const MIN_SIDE: f64 = 1e-6;

// The field with at most n bisections; one more is refused, with the station's number i.
#[tactic(auto, using(crate::proofs::Step::step), unfolding(crate::specs::Prism::join))]
fn pieces(rule: AxisRule, i: u32, n: u32, p: Vector, bounds: Bounds) -> Result<Newtonian, Refusal>
    ensures { result ≡ pieces rule i n p bounds.lo bounds.hi }
{
    match prism_pieces::piece_of(rule, p, bounds) {
        Piece::Whole(f) => Ok(f),
        Piece::Halves(lower, upper) => {
            if n == 0 {
                return Err(Refusal::TooDeep(i));
            }
            let lower_field = pieces(rule, i, n - 1, p, lower)?;
            let upper_field = pieces(rule, i, n - 1, p, upper)?;
            Ok(add_fields(lower_field, upper_field))
        }
    }
}

// The field at the station p of number i. What it is given is not tested.
#[tactic(auto, unfolding(crate::specs::Prism::prism_at))]
pub fn prism_at(rule: AxisRule, i: u32, p: Vector, bounds: Bounds) -> Result<Newtonian, Refusal>
    ensures { result ≡ prism_at rule i p bounds.lo bounds.hi }
{
    pieces(rule, i, MAX_BISECTIONS, p, bounds)
}

#[tactic(auto, unfolding(crate::specs::Prism::numbers_within_limits))]
fn numbers_within_limits(p: Vector, bounds: Bounds) -> bool
    ensures { result ≡ numbers_within_limits p bounds.lo bounds.hi }
{
    let Bounds { lo, hi } = bounds;
    vector_within_limits(p) & (vector_within_limits(lo) & vector_within_limits(hi))
}

#[tactic(auto, unfolding(crate::specs::Prism::side_within_limits))]
fn side_within_limits(lo: f64, hi: f64) -> bool
    ensures { result ≡ side_within_limits lo hi }
{
    MIN_SIDE <= hi - lo
}

#[tactic(auto, unfolding(crate::specs::Prism::sides_within_limits))]
pub fn sides_within_limits(bounds: Bounds) -> bool
    ensures { result ≡ sides_within_limits bounds.lo bounds.hi }
{
    let Bounds { lo, hi } = bounds;
    side_within_limits(lo.x, hi.x)
        & (side_within_limits(lo.y, hi.y) & side_within_limits(lo.z, hi.z))
}

// The three sides, multiplied left to right.
#[tactic(auto, unfolding(crate::specs::Prism::prism_volume, newtonian::specs::Vectors::difference))]
pub fn volume(bounds: Bounds) -> f64
    ensures { result ≡ prism_volume bounds.lo bounds.hi }
{
    let sides = bounds.sides();
    sides.x * sides.y * sides.z
}

#[tactic(auto, unfolding(crate::specs::Prism::cause_of))]
fn cause_of(p: Vector, bounds: Bounds) -> Result<(), Refusal>
    ensures { result ≡ cause_of p bounds.lo bounds.hi }
{
    if !numbers_within_limits(p, bounds) {
        return Err(Refusal::OutOfLimits);
    }
    if !sides_within_limits(bounds) {
        return Err(Refusal::TooThin);
    }
    Ok(())
}

// The field of the prism from min to max at a station, at unit Gρ; or refused by 3, 9 or 10. Of equal longest sides the first is halved.
#[tactic(auto, unfolding(crate::specs::Prism::prism))]
pub fn prism(station: Vector, min: Vector, max: Vector) -> Result<Newtonian, Refusal>
    ensures { result ≡ prism station min max }
{
    let bounds = Bounds { lo: min, hi: max };
    cause_of(station, bounds)?;
    prism_at(AxisRule::FirstOfEquals, 0, station, bounds)
}
