// The field record; vectors of three doubles; a mass point's field; the numbers of each, in order.
#![tactic(auto)]

ghost use Rattle.std.specs.Prelude.{◌≡◌};
ghost use Rattle.roots.specs.Root.{Root};
ghost use Rattle.newtonian.specs.Vectors.{difference, dot, norm, cross, over, diagonal, add_vectors, add_fields, zero_field, vector_within_limits};
ghost use Rattle.newtonian.specs.Point.{add_point_gradient, add_point_row, add_point};

// How many numbers a field has.
pub const FIELD_SIZE: usize = 13;

#[derive(Clone, Copy, Debug, PartialEq)]
pub struct Vector {
    pub x: f64,
    pub y: f64,
    pub z: f64,
}

// A matrix by its rows: of a field, the second derivatives of its potential.
#[derive(Clone, Copy, Debug, PartialEq)]
pub struct Hessian {
    pub x: Vector,
    pub y: Vector,
    pub z: Vector,
}

// The field of a body at a station, at unit Gρ: the potential V = ∫dV/r, its gradient, which is the attraction and points
// at the body, and its Hessian, the gravity-gradient tensor.
#[derive(Clone, Copy, Debug, PartialEq)]
pub struct Newtonian {
    pub potential: f64,
    pub gradient: Vector,
    pub hessian: Hessian,
}

#[tactic(auto, unfolding(crate::specs::Vectors::difference))]
pub fn difference(a: Vector, b: Vector) -> Vector
    ensures { result ≡ difference a b }
{
    Vector {
        x: a.x - b.x,
        y: a.y - b.y,
        z: a.z - b.z,
    }
}

#[tactic(auto, unfolding(crate::specs::Vectors::dot))]
pub fn dot(a: Vector, b: Vector) -> f64
    ensures { result ≡ dot a b }
{
    a.x * b.x + a.y * b.y + a.z * b.z
}

#[tactic(auto, unfolding(crate::specs::Vectors::norm))]
pub fn norm(a: Vector) -> f64
    ensures { result ≡ norm a }
{
    roots::root(dot(a, a))
}

#[tactic(auto, unfolding(crate::specs::Vectors::cross))]
pub fn cross(a: Vector, b: Vector) -> Vector
    ensures { result ≡ cross a b }
{
    Vector {
        x: a.y * b.z - a.z * b.y,
        y: a.z * b.x - a.x * b.z,
        z: a.x * b.y - a.y * b.x,
    }
}

// a / n
#[tactic(auto, unfolding(crate::specs::Vectors::over))]
pub fn over(a: Vector, n: f64) -> Vector
    ensures { result ≡ over a n }
{
    Vector {
        x: a.x / n,
        y: a.y / n,
        z: a.z / n,
    }
}

// k I
#[tactic(auto, unfolding(crate::specs::Vectors::diagonal))]
pub fn diagonal(k: f64) -> Hessian
    ensures { result ≡ diagonal k }
{
    Hessian {
        x: Vector {
            x: k,
            y: 0.0,
            z: 0.0,
        },
        y: Vector {
            x: 0.0,
            y: k,
            z: 0.0,
        },
        z: Vector {
            x: 0.0,
            y: 0.0,
            z: k,
        },
    }
}

pub fn add_vectors(a: Vector, b: Vector) -> Vector
    ensures { result ≡ add_vectors a b }
{
    Vector {
        x: a.x + b.x,
        y: a.y + b.y,
        z: a.z + b.z,
    }
}

pub fn add_fields(f: Newtonian, g: Newtonian) -> Newtonian
    ensures { result ≡ add_fields f g }
{
    Newtonian {
        potential: f.potential + g.potential,
        gradient: add_vectors(f.gradient, g.gradient),
        hessian: Hessian {
            x: add_vectors(f.hessian.x, g.hessian.x),
            y: add_vectors(f.hessian.y, g.hessian.y),
            z: add_vectors(f.hessian.z, g.hessian.z),
        },
    }
}

// Where a sum of fields starts.
#[tactic(auto, unfolding(crate::specs::Vectors::zero_field))]
pub fn zero_field() -> Newtonian
    ensures { result ≡ zero_field }
{
    let o = Vector {
        x: 0.0,
        y: 0.0,
        z: 0.0,
    };
    Newtonian {
        potential: 0.0,
        gradient: o,
        hessian: Hessian { x: o, y: o, z: o },
    }
}

fn add_point_gradient(g: Vector, w: f64, d: Vector, q: f64) -> Vector
    ensures { result ≡ add_point_gradient g w d q }
{
    Vector {
        x: g.x + w * d.x / q,
        y: g.y + w * d.y / q,
        z: g.z + w * d.z / q,
    }
}

fn add_point_row(t: Vector, w: f64, u: f64, d: Vector, e: Vector, q: f64) -> Vector
    ensures { result ≡ add_point_row t w u d e q }
{
    Vector {
        x: t.x + w * (3.0 * u * d.x - e.x) / q,
        y: t.y + w * (3.0 * u * d.y - e.y) / q,
        z: t.z + w * (3.0 * u * d.z - e.z) / q,
    }
}

// The sums f with the terms of a mass point at d from the station, of weight w. r2 is the square of d and r its length.
pub fn add_point_at(w: f64, d: Vector, r2: f64, r: f64, f: Newtonian) -> Newtonian
    requires { (r2 ≡ dot d d) × (r ≡ Root r2) }
    ensures { result ≡ add_point w d f }
{
    let r5 = r2 * r2 * r;
    let e = diagonal(r2);
    let ex = e.x;
    let ey = e.y;
    let ez = e.z;
    Newtonian {
        potential: f.potential + w / r,
        gradient: add_point_gradient(f.gradient, w, d, r2 * r),
        hessian: Hessian {
            x: add_point_row(f.hessian.x, w, d.x, d, ex, r5),
            y: add_point_row(f.hessian.y, w, d.y, d, ey, r5),
            z: add_point_row(f.hessian.z, w, d.z, d, ez, r5),
        },
    }
}

pub fn add_point(w: f64, d: Vector, f: Newtonian) -> Newtonian
    ensures { result ≡ add_point w d f }
{
    let r2 = dot(d, d);
    let r = roots::root(r2);
    add_point_at(w, d, r2, r, f)
}

// Refusal 3's test of a vector.
#[tactic(auto, unfolding(crate::specs::Vectors::vector_within_limits))]
pub fn vector_within_limits(v: Vector) -> bool
    ensures { result ≡ vector_within_limits v }
{
    doubles::within_limits(v.x) & doubles::within_limits(v.y) & doubles::within_limits(v.z)
}

// ---- the numbers in order, field by field: nothing derives a struct from an array, or an array from a struct

impl From<[f64; 3]> for Vector {
    ghost use Rattle.std.specs.Prelude.{◌≡◌};
    ghost use Rattle.newtonian.specs.Numbers.{vector_of};

    ghost from_gives = { λ v r. r ≡ vector_of v };

    #[tactic(auto, unfolding(crate::specs::Numbers::vector_of))]
    fn from(v: [f64; 3]) -> Vector {
        Vector {
            x: v[0],
            y: v[1],
            z: v[2],
        }
    }
}

impl From<Vector> for [f64; 3] {
    ghost use Rattle.std.specs.Prelude.{◌≡◌};
    ghost use Rattle.newtonian.specs.Vectors.{vector_numbers};

    ghost from_gives = { λ v r. r ≡ vector_numbers v };

    fn from(v: Vector) -> [f64; 3] {
        [v.x, v.y, v.z]
    }
}

// Row by row.
impl From<[f64; 9]> for Hessian {
    ghost use Rattle.std.specs.Prelude.{◌≡◌};
    ghost use Rattle.newtonian.specs.Numbers.{hessian_of};

    ghost from_gives = { λ t r. r ≡ hessian_of t };

    #[tactic(auto, unfolding(crate::specs::Numbers::hessian_of))]
    fn from(t: [f64; 9]) -> Hessian {
        Hessian {
            x: Vector {
                x: t[0],
                y: t[1],
                z: t[2],
            },
            y: Vector {
                x: t[3],
                y: t[4],
                z: t[5],
            },
            z: Vector {
                x: t[6],
                y: t[7],
                z: t[8],
            },
        }
    }
}

impl From<Hessian> for [f64; 9] {
    ghost use Rattle.std.specs.Prelude.{◌≡◌};
    ghost use Rattle.newtonian.specs.Numbers.{hessian_numbers};

    ghost from_gives = { λ t r. r ≡ hessian_numbers t };

    #[tactic(auto, unfolding(crate::specs::Numbers::hessian_numbers))]
    fn from(t: Hessian) -> [f64; 9] {
        [
            t.x.x, t.x.y, t.x.z, t.y.x, t.y.y, t.y.z, t.z.x, t.z.y, t.z.z,
        ]
    }
}

// The potential, the gradient, and the Hessian row by row.
impl From<Newtonian> for [f64; FIELD_SIZE] {
    ghost use Rattle.std.specs.Prelude.{◌≡◌};
    ghost use Rattle.newtonian.specs.Vectors.{field_numbers};

    ghost from_gives = { λ f r. r ≡ field_numbers f };

    #[tactic(auto, unfolding(crate::specs::Vectors::field_numbers))]
    fn from(f: Newtonian) -> [f64; FIELD_SIZE] {
        [
            f.potential,
            f.gradient.x,
            f.gradient.y,
            f.gradient.z,
            f.hessian.x.x,
            f.hessian.x.y,
            f.hessian.x.z,
            f.hessian.y.x,
            f.hessian.y.y,
            f.hessian.y.z,
            f.hessian.z.x,
            f.hessian.z.y,
            f.hessian.z.z,
        ]
    }
}
