// The corner sums of a prism, with the logarithms and the angles of all corners side by side. Of corner k, what belongs to the axes x, y
// and z stands at k, 8 + k and 16 + k. A loop over lanes walks several arrays in step, by an index: of one body over fixed arrays the
// compiler makes packed instructions, and a chain of zipped iterators would be no plainer. `distances` takes its arrays one by one, since there is no `Corners` yet;
// `sum` takes the logarithms and angles beside the coordinates, since they are made of a whole `Corners`: a struct of the three would be made for this one call.
#![tactic(auto)]

ghost use Rattle.std.specs.Prelude.{◌≡◌, true, ◌<◌, IfSome};
ghost use Rattle.newtonian.specs.Fold.{Fold};
ghost use Rattle.newtonian.specs.Vectors.{zero_field};
ghost use Rattle.lanes.specs.Lanes.{Lanes};
ghost use Rattle.prism_corner_sums.specs.CornerSums.{corner_sums};
ghost use Rattle.prism_corner_lanes.specs.CornerLanes.{offset, axes, turned, thrice, distance_at, argument, argument_at, logarithm_at, quotient_at, angle_at, third, add_lanes, AreSeen};

use lanes::pick;
use newtonian::{Newtonian, Vector};
use prism_corner_sums::{Bounds, PrismCorner, coordinate};

// The lower or the upper corner less the station; one function with a bool, since `coordinate` takes one: two would write the three axes out twice, and a closure would be
// handed `coordinate` with the same bool in it.
#[tactic(auto, unfolding(crate::specs::CornerLanes::offset))]
fn offset(upper: bool, p: Vector, bounds: Bounds) -> Vector
    ensures { result ≡ offset upper p bounds.lo bounds.hi }
{
    let Bounds { lo, hi } = bounds;
    Vector {
        x: coordinate(upper, p.x, lo.x, hi.x),
        y: coordinate(upper, p.y, lo.y, hi.y),
        z: coordinate(upper, p.z, lo.z, hi.z),
    }
}

// Whether the station, which the box is seen from, lies on a line that holds an edge: there two axes have a corner at zero, and the
// corners one by one are quicker. Nothing is promised: a wrong answer would cost time only.
fn on_edge_line(seen: Bounds) -> bool {
    let Bounds { lo: a, hi: b } = seen;
    let x = (a.x == 0.0) | (b.x == 0.0);
    let y = (a.y == 0.0) | (b.y == 0.0);
    let z = (a.z == 0.0) | (b.z == 0.0);
    (x & y) | (y & z) | (z & x)
}

// The coordinates of the corners of the prism from a to b, written out as the bits of the corners' numbers choose them.
fn axes(a: Vector, b: Vector) -> [f64; 24]
    ensures { result ≡ axes a b }
{
    [
        a.x, b.x, a.x, b.x, a.x, b.x, a.x, b.x, a.y, a.y, b.y, b.y, a.y, a.y, b.y, b.y, a.z, a.z,
        a.z, a.z, b.z, b.z, b.z, b.z,
    ]
}

// What belongs to the next axis.
fn turned(x: [f64; 24]) -> [f64; 24]
    ensures { result ≡ turned x }
{
    [
        x[8], x[9], x[10], x[11], x[12], x[13], x[14], x[15], x[16], x[17], x[18], x[19], x[20],
        x[21], x[22], x[23], x[0], x[1], x[2], x[3], x[4], x[5], x[6], x[7],
    ]
}

// A number of each corner, for each axis the same.
fn thrice(d: [f64; 8]) -> [f64; 24]
    ensures { result ≡ thrice d }
{
    [
        d[0], d[1], d[2], d[3], d[4], d[5], d[6], d[7], d[0], d[1], d[2], d[3], d[4], d[5], d[6],
        d[7], d[0], d[1], d[2], d[3], d[4], d[5], d[6], d[7],
    ]
}

// The distance of each corner.
fn distances(x: &[f64; 24], y: &[f64; 24], z: &[f64; 24], d: &mut [f64; 8])
    ensures { Lanes 8 (distance_at x.now y.now z.now) d.new }
{
    let mut q = [0.0; 8];
    for k in 0..8 {
        let xk = x[k];
        let yk = y[k];
        let zk = z[k];
        q[k] = xk * xk + yk * yk + zk * zk;
    }
    lanes::roots(&q, d);
}

// What the logarithm of a corner is taken of.
#[tactic(auto, unfolding(crate::specs::CornerLanes::argument))]
fn argument(p: f64, hi: f64, x: f64, y: f64, z: f64, r: f64) -> f64
    ensures { result ≡ argument p hi x y z r }
{
    let d = r - x;
    pick(p >= hi, d, pick(x >= 0.0, x + r, (y * y + z * z) / d))
}

// The corners, each for each axis: at and top are the station's coordinate and the upper corner's, x is the corner's less the station's, y
// and z are those on the two axes that follow in turn, and r is the corner's distance.
#[derive(Drop)]
struct Corners {
    at: [f64; 24],
    top: [f64; 24],
    x: [f64; 24],
    y: [f64; 24],
    z: [f64; 24],
    r: [f64; 24],
}

impl Corners {
    // Of the prism whose upper corner is hi, and which is seen so from p.
    fn new(p: Vector, hi: Vector, seen: Bounds) -> Corners
        ensures { AreSeen p hi seen.lo seen.hi result }
    {
        let x = axes(seen.lo, seen.hi);
        let y = turned(x);
        let z = turned(y);
        let mut d = [0.0; 8];
        distances(&x, &y, &z, &mut d);
        Corners {
            at: axes(p, p),
            top: axes(hi, hi),
            x,
            y,
            z,
            r: thrice(d),
        }
    }

    fn arguments(&self, v: &mut [f64; 24])
        ensures { Lanes 24 (argument_at self.now) v.new }
    {
        for k in 0..24 {
            v[k] = argument(
                self.at[k],
                self.top[k],
                self.x[k],
                self.y[k],
                self.z[k],
                self.r[k],
            );
        }
    }

    // The logarithms, if each is taken of a number that is normal and above zero.
    fn logarithms(&self) -> Option<[f64; 24]>
        ensures { IfSome result (Lanes 24 (logarithm_at self.now)) }
    {
        let mut v = [0.0; 24];
        self.arguments(&mut v);
        let w = lanes_ln::ln(&v)?;
        let mut l = [0.0; 24];
        for k in 0..24 {
            let wk = w[k];
            l[k] = pick(self.at[k] >= self.top[k], -wk, wk);
        }
        Some(l)
    }

    fn quotients(&self, q: &mut [f64; 24])
        ensures { Lanes 24 (quotient_at self.now) q.new }
    {
        for k in 0..24 {
            q[k] = self.y[k] * self.z[k] / (self.x[k] * self.r[k]);
        }
    }

    fn angles(&self, a: &mut [f64; 24])
        ensures { Lanes 24 (angle_at self.now) a.new }
    {
        let mut q = [0.0; 24];
        let mut t = [0.0; 24];
        self.quotients(&mut q);
        lanes_atan::atan(&q, &mut t);
        for k in 0..24 {
            a[k] = pick(self.y[k] * self.z[k] == 0.0, 0.0, t[k]);
        }
    }
}

// What belongs to corner k.
fn third(w: &[f64; 24], k: usize) -> Vector
    requires { k < 8 }
    ensures { result ≡ third w.now k }
{
    Vector {
        x: w[k],
        y: w[k + 8],
        z: w[k + 16],
    }
}

// The sum over the eight corners, in order. By the corner's number, since its bits choose the sign.
fn sum(x: &[f64; 24], l: &[f64; 24], a: &[f64; 24]) -> Newtonian
    ensures { result ≡ Fold 8 (add_lanes x.now l.now a.now) zero_field }
{
    let mut f = newtonian::zero_field();
    for k in 0..8u32 {
        let c = PrismCorner {
            at: third(x, k as usize),
            log: third(l, k as usize),
            angle: third(a, k as usize),
        };
        f = prism_corner_sums::add_corner_terms(prism_corner_sums::sign(k), c, f);
    }
    f
}

// The field of the prism at p. Where a logarithm is not ordinary the corners are taken one by one.
pub fn corner_sums(p: Vector, bounds: Bounds) -> Newtonian
    ensures { result ≡ corner_sums p bounds.lo bounds.hi }
{
    let seen = Bounds {
        lo: offset(false, p, bounds),
        hi: offset(true, p, bounds),
    };
    if on_edge_line(seen) {
        return prism_corner_sums::corner_sums(p, bounds);
    }
    let c = Corners::new(p, bounds.hi, seen);
    if let Some(l) = c.logarithms() {
        let mut a = [0.0; 24];
        c.angles(&mut a);
        return sum(&c.x, &l, &a);
    }
    prism_corner_sums::corner_sums(p, bounds)
}
