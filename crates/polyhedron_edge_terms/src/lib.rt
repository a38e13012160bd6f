// What one face and one edge of a polyhedron add to the field, by the edge and face sums of Werner & Scheeres (1997).
// Arguments stay as the paper names them: a corner belongs to two sides of a face, so that no struct of a side and its corners could be kept.
#![tactic(auto)]

ghost use Rattle.std.specs.Prelude.{◌≡◌};
ghost use Rattle.polyhedron_edge_terms.specs.Corners.{unit, side_of, seen};
ghost use Rattle.polyhedron_edge_terms.specs.SolidAngle.{passes_through, winding_angle, solid_angle};
ghost use Rattle.polyhedron_edge_terms.specs.EdgeTerms.{gap, logarithm, dyad, vector_times, add_times, sub_times, add_face_terms, add_edge_terms, mean, symmetric};

use newtonian::{Hessian, Newtonian, Vector, cross, difference, dot};

// A side of a face, from one vertex to the next: its unit normal in the face's plane and its length.
#[derive(Clone, Copy)]
pub struct Side {
    pub from: u32,
    pub to: u32,
    pub normal: Vector,
    pub length: f64,
}

// A corner seen from the station: its offset and its distance.
#[derive(Clone, Copy)]
pub struct Corner {
    pub r: Vector,
    pub l: f64,
}

#[tactic(auto, unfolding(crate::specs::Corners::unit))]
pub fn unit(a: Vector) -> Vector
    ensures { result ≡ unit a }
{
    newtonian::over(a, newtonian::norm(a))
}

// The side from a to b, between the vertices from and to, of a face with the unit normal n.
#[tactic(auto, unfolding(crate::specs::Corners::side_of))]
pub fn side_of(n: Vector, a: Vector, b: Vector, from: u32, to: u32) -> Side
    ensures { result ≡ side_of n a b from to }
{
    let edge = difference(b, a);
    Side {
        from,
        to,
        normal: unit(cross(edge, n)),
        length: newtonian::norm(edge),
    }
}

// The corner at q seen from p.
#[tactic(auto, unfolding(crate::specs::Corners::seen))]
pub fn seen(p: Vector, q: Vector) -> Corner
    ensures { result ≡ seen p q }
{
    let r = difference(q, p);
    Corner {
        r,
        l: newtonian::norm(r),
    }
}

// An edge passes through the station if an end lies there, or the station lies between the ends.
#[tactic(auto, unfolding(crate::specs::SolidAngle::passes_through))]
fn passes_through(la: f64, lb: f64, sin: f64, cos: f64) -> bool
    ensures { result ≡ passes_through la lb sin cos }
{
    la == 0.0 || lb == 0.0 || (sin == 0.0 && cos < 0.0)
}

// The angle from a to b about a station in the face's plane.
#[tactic(auto, unfolding(crate::specs::SolidAngle::winding_angle))]
fn winding_angle(n: Vector, a: Corner, b: Corner) -> f64
    ensures { result ≡ winding_angle n a b }
{
    let sin = dot(cross(a.r, b.r), n);
    let cos = dot(a.r, b.r);
    if passes_through(a.l, b.l, sin, cos) {
        return 0.0;
    }
    carlson::atan2(sin, cos)
}

#[tactic(auto, unfolding(crate::specs::SolidAngle::solid_angle))]
pub fn solid_angle(n: Vector, a: Corner, b: Corner, c: Corner) -> f64
    ensures { result ≡ solid_angle n a b c }
{
    let triple = dot(a.r, cross(b.r, c.r));
    if triple == 0.0 {
        return -(-0.0 + winding_angle(n, a, b) + winding_angle(n, b, c) + winding_angle(n, c, a));
    }
    let bc = dot(b.r, c.r);
    let ca = dot(c.r, a.r);
    let ab = dot(a.r, b.r);
    2.0 * carlson::atan2(triple, a.l * b.l * c.l + a.l * bc + b.l * ca + c.l * ab)
}

// r_a + r_b − e without cancellation.
#[tactic(auto, unfolding(crate::specs::EdgeTerms::gap))]
fn gap(a: Corner, b: Corner, e: f64) -> f64
    ensures { result ≡ gap a b e }
{
    let sum = a.l + b.l;
    let ab = dot(a.r, b.r);
    if ab < 0.0 {
        let c = cross(a.r, b.r);
        return 2.0 * dot(c, c) / ((a.l * b.l - ab) * (sum + e));
    }
    sum - e
}

// The logarithm of an edge of length e from a to b. It may be infinite or a NaN, as where the station lies on the edge.
#[tactic(auto, unfolding(crate::specs::EdgeTerms::logarithm))]
pub fn logarithm(a: Corner, b: Corner, e: f64) -> f64
    ensures { result ≡ logarithm a b e }
{
    carlson::ln((a.l + b.l + e) / gap(a, b, e))
}

#[tactic(auto, unfolding(crate::specs::EdgeTerms::dyad))]
pub fn dyad(n: Vector, m: Vector) -> Hessian
    ensures { result ≡ dyad n m }
{
    Hessian {
        x: Vector {
            x: n.x * m.x,
            y: n.x * m.y,
            z: n.x * m.z,
        },
        y: Vector {
            x: n.y * m.x,
            y: n.y * m.y,
            z: n.y * m.z,
        },
        z: Vector {
            x: n.z * m.x,
            y: n.z * m.y,
            z: n.z * m.z,
        },
    }
}

// u s, t + u w and t - u w by functions, not operators: each is a definition of its own, with its order of roundings.
fn vector_times(u: Vector, s: f64) -> Vector
    ensures { result ≡ vector_times u s }
{
    Vector {
        x: u.x * s,
        y: u.y * s,
        z: u.z * s,
    }
}

fn add_times(t: Vector, u: Vector, w: f64) -> Vector
    ensures { result ≡ add_times t u w }
{
    Vector {
        x: t.x + u.x * w,
        y: t.y + u.y * w,
        z: t.z + u.z * w,
    }
}

fn sub_times(t: Vector, u: Vector, w: f64) -> Vector
    ensures { result ≡ sub_times t u w }
{
    Vector {
        x: t.x - u.x * w,
        y: t.y - u.y * w,
        z: t.z - u.z * w,
    }
}

// The field f with the terms of the face in the plane n·r = rho that subtends omega. d is n nᵀ, made once for many stations.
#[tactic(auto, unfolding(crate::specs::EdgeTerms::add_face_terms))]
pub fn add_face_dyad(d: Hessian, n: Vector, rho: f64, omega: f64, f: Newtonian) -> Newtonian
    requires { d ≡ dyad n n }
    ensures { result ≡ add_face_terms n rho omega f }
{
    Newtonian {
        potential: f.potential - 0.5 * rho * rho * omega,
        gradient: add_times(f.gradient, vector_times(n, rho), omega),
        hessian: Hessian {
            x: sub_times(f.hessian.x, d.x, omega),
            y: sub_times(f.hessian.y, d.y, omega),
            z: sub_times(f.hessian.z, d.z, omega),
        },
    }
}

pub fn add_face_terms(n: Vector, rho: f64, omega: f64, f: Newtonian) -> Newtonian
    ensures { result ≡ add_face_terms n rho omega f }
{
    add_face_dyad(dyad(n, n), n, rho, omega, f)
}

// The field f with the terms of an edge of the face with the normal n: the edge's normal m, its logarithm l, and the offset
// r of a point on it. d is n mᵀ.
#[tactic(auto, unfolding(crate::specs::EdgeTerms::add_edge_terms))]
pub fn add_edge_dyad(d: Hessian, n: Vector, m: Vector, l: f64, r: Vector, f: Newtonian) -> Newtonian
    requires { d ≡ dyad n m }
    ensures { result ≡ add_edge_terms n m l r f }
{
    let nr = dot(n, r);
    let mr = dot(m, r);
    Newtonian {
        potential: f.potential + 0.5 * nr * mr * l,
        gradient: sub_times(f.gradient, vector_times(n, mr), l),
        hessian: Hessian {
            x: add_times(f.hessian.x, d.x, l),
            y: add_times(f.hessian.y, d.y, l),
            z: add_times(f.hessian.z, d.z, l),
        },
    }
}

pub fn add_edge_terms(n: Vector, m: Vector, l: f64, r: Vector, f: Newtonian) -> Newtonian
    ensures { result ≡ add_edge_terms n m l r f }
{
    add_edge_dyad(dyad(n, m), n, m, l, r, f)
}

fn mean(a: f64, b: f64) -> f64
    ensures { result ≡ mean a b }
{
    0.5 * (a + b)
}

// The Hessian with the mean of its entries (i, j) and (j, i) at both.
#[tactic(auto, unfolding(crate::specs::EdgeTerms::symmetric))]
pub fn symmetric(t: Hessian) -> Hessian
    ensures { result ≡ symmetric t }
{
    let xy = mean(t.x.y, t.y.x);
    let xz = mean(t.x.z, t.z.x);
    let yz = mean(t.y.z, t.z.y);
    Hessian {
        x: Vector {
            x: t.x.x,
            y: xy,
            z: xz,
        },
        y: Vector {
            x: xy,
            y: t.y.y,
            z: yz,
        },
        z: Vector {
            x: xz,
            y: yz,
            z: t.z.z,
        },
    }
}
