// Gaussian elimination with partial pivoting, for three rows.
#![tactic(auto)]

ghost use Rattle.std.specs.Prelude.{◌≡◌};
ghost use Rattle.linalg.specs.Gauss.{rows_of, takes, pivot_x, pivot_y, without_x, without_y, eliminate_x, eliminate_y, back_substituted, gauss};

use newtonian::Vector;

// The equation whose left side has the entries x, y and z.
#[derive(Clone, Copy)]
pub struct Row {
    pub x: f64,
    pub y: f64,
    pub z: f64,
    pub right: f64,
}

// Three names and no array: the definitions name the rows, and an index is a goal wherever it stands.
#[derive(Clone, Copy)]
pub struct Rows {
    pub first: Row,
    pub second: Row,
    pub third: Row,
}

#[tactic(auto, unfolding(crate::specs::Gauss::rows_of))]
pub fn rows_of(p: Row, q: Row, r: Row) -> Rows
    ensures { result ≡ rows_of p q r }
{
    Rows {
        first: p,
        second: q,
        third: r,
    }
}

// Whether v takes the place of the pivot u: the last of equals, a NaN above all numbers.
#[tactic(auto, unfolding(crate::specs::Gauss::takes))]
fn takes(u: f64, v: f64) -> bool
    ensures { result ≡ takes u v }
{
    v.is_nan() | (doubles::abs(u) <= doubles::abs(v))
}

#[tactic(auto, unfolding(crate::specs::Gauss::pivot_x))]
fn pivot_x(s: Rows) -> Rows
    ensures { result ≡ pivot_x s }
{
    let Rows {
        first: p,
        second: q,
        third: r,
    } = s;
    if takes(p.x, q.x) {
        if takes(q.x, r.x) {
            return rows_of(r, q, p);
        }
        return rows_of(q, p, r);
    }
    if takes(p.x, r.x) {
        return rows_of(r, q, p);
    }
    s
}

#[tactic(auto, unfolding(crate::specs::Gauss::pivot_y))]
fn pivot_y(s: Rows) -> Rows
    ensures { result ≡ pivot_y s }
{
    let Rows {
        first: p,
        second: q,
        third: r,
    } = s;
    if takes(q.y, r.y) {
        return rows_of(p, r, q);
    }
    s
}

#[tactic(auto, unfolding(crate::specs::Gauss::without_x))]
fn without_x(q: Row, p: Row) -> Row
    ensures { result ≡ without_x q p }
{
    let f = q.x / p.x;
    Row {
        x: q.x - f * p.x,
        y: q.y - f * p.y,
        z: q.z - f * p.z,
        right: q.right - f * p.right,
    }
}

#[tactic(auto, unfolding(crate::specs::Gauss::without_y))]
fn without_y(q: Row, p: Row) -> Row
    ensures { result ≡ without_y q p }
{
    let f = q.y / p.y;
    Row {
        y: q.y - f * p.y,
        z: q.z - f * p.z,
        right: q.right - f * p.right,
        ..q
    }
}

#[tactic(auto, unfolding(crate::specs::Gauss::eliminate_x))]
fn eliminate_x(s: Rows) -> Rows
    ensures { result ≡ eliminate_x s }
{
    let Rows {
        first: p,
        second: q,
        third: r,
    } = s;
    rows_of(p, without_x(q, p), without_x(r, p))
}

#[tactic(auto, unfolding(crate::specs::Gauss::eliminate_y))]
fn eliminate_y(s: Rows) -> Rows
    ensures { result ≡ eliminate_y s }
{
    let Rows {
        first: p,
        second: q,
        third: r,
    } = s;
    rows_of(p, q, without_y(r, q))
}

// From the last row up. Each sum of known terms starts at -0, also the empty one.
#[tactic(auto, unfolding(crate::specs::Gauss::back_substituted))]
fn back_substituted(s: Rows) -> Vector
    ensures { result ≡ back_substituted s }
{
    let z = (s.third.right - -0.0) / s.third.z;
    let y = (s.second.right - (-0.0 + s.second.z * z)) / s.second.y;
    let x = (s.first.right - (-0.0 + s.first.y * y + s.first.z * z)) / s.first.x;
    Vector { x, y, z }
}

// The solution of three equations.
#[tactic(auto, unfolding(crate::specs::Gauss::gauss))]
pub fn gauss(s: Rows) -> Vector
    ensures { result ≡ gauss s }
{
    back_substituted(eliminate_y(pivot_y(eliminate_x(pivot_x(s)))))
}
