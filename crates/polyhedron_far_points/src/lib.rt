// The points of a tetrahedron and their weights, made once for all stations that are far from it, and their field at one station.
#![tactic(auto)]

ghost use Rattle.std.specs.Prelude.{◌≡◌, ℕ, ◌+◌, ◌*◌, ◌≤◌, ◌<◌, length};
ghost use Rattle.roots.specs.Root.{Root};
ghost use Rattle.newtonian.specs.Fold.{Fold};
ghost use Rattle.newtonian.specs.Vectors.{difference};
ghost use Rattle.lanes.specs.Lanes.{lane, Lanes};
ghost use Rattle.polyhedron_far_points.specs.Tetrahedral.{point_count, point_at, point_square, point_step};
ghost use Rattle.polyhedron_far_points.specs.PointsOf.{FirstOf, field_of, zero_points};

use newtonian::{Newtonian, Vector};
use polyhedron_tetrahedra::{MappedRule, POINTS, Tetrahedron};

// How many points a tetrahedron has.
pub const POINT_COUNT: usize = 216;

// The points' coordinates, axis by axis, and their weights.
#[derive(Drop)]
pub struct Points {
    pub x: [f64; POINT_COUNT],
    pub y: [f64; POINT_COUNT],
    pub z: [f64; POINT_COUNT],
    pub w: [f64; POINT_COUNT],
}

// n is the number of a point, and no length of q or r.
impl Points {
    // Room for a tetrahedron's points.
    pub fn new() -> Self
        ensures { result ≡ zero_points }
    {
        Points {
            x: [0.0; POINT_COUNT],
            y: [0.0; POINT_COUNT],
            z: [0.0; POINT_COUNT],
            w: [0.0; POINT_COUNT],
        }
    }

    // Line m of the tetrahedron s: six points. By the index, since they go into four arrays in step.
    fn fill_line(&mut self, a: Vector, s: Tetrahedron, rule: &MappedRule, m: usize)
        requires { (m < 36) × FirstOf a s (6 * m) self.old }
        ensures { FirstOf a s (6 * m + 6) self.new }
    {
        let u = rule.nodes[m / 6];
        let v = rule.nodes[m % 6];
        let wu = rule.weights[m / 6];
        let wv = rule.weights[m % 6];
        let c = polyhedron_tetrahedra::line_weight(s.vol6, u, v, wu, wv);
        for t in 0..POINTS {
            let n = 6 * m + t;
            let q = polyhedron_tetrahedra::duffy(a, s, u, v, rule.nodes[t]);
            self.x[n] = q.x;
            self.y[n] = q.y;
            self.z[n] = q.z;
            self.w[n] = c * rule.weights[t];
        }
    }

    // Makes them the points of the tetrahedron s with the apex a. By the line's number, from which its nodes are found.
    pub fn fill(&mut self, a: Vector, s: Tetrahedron, rule: &MappedRule)
        ensures { FirstOf a s point_count self.new }
    {
        for m in 0..36usize {
            self.fill_line(a, s, rule, m);
        }
    }

    // Point n.
    pub fn at(&self, n: usize) -> Vector
        requires { n < point_count }
        ensures { result ≡ point_at self.now.x self.now.y self.now.z n }
    {
        Vector {
            x: self.x[n],
            y: self.y[n],
            z: self.z[n],
        }
    }

    // Point n less the station.
    fn offset(&self, p: Vector, n: usize) -> Vector
        requires { n < point_count }
        ensures { result ≡ difference (point_at self.now.x self.now.y self.now.z n) p }
    {
        newtonian::difference(self.at(n), p)
    }

    // The squared distances of the 24 points from n on: a loop with one body over fixed arrays, which is what the compiler makes packed instructions of.
    fn squares(&self, p: Vector, n: usize, q: &mut [f64; 24])
        requires { n + 24 ≤ point_count }
        ensures { Lanes 24 (λ (k : ℕ). point_square p self.now.x self.now.y self.now.z (n + k)) q.new }
    {
        for (k, qk) in q.iter_mut().enumerate() {
            let d = self.offset(p, n + k);
            *qk = newtonian::dot(d, d);
        }
    }

    // The sums f with the 24 points from n on; q and r hold their squared distances and distances. By the index, since six arrays are read in step.
    fn add_points(
        &self,
        p: Vector,
        n: usize,
        q: &[f64; 24],
        r: &[f64; 24],
        f: Newtonian,
    ) -> Newtonian
        requires n_bound { n + 24 ≤ point_count }
        requires lanes { Lanes 24 (λ (k : ℕ). point_square p self.now.x self.now.y self.now.z (n + k)) q.now × Lanes 24 (λ (k : ℕ). Root (lane q.now k)) r.now }
        ensures { result ≡ Fold 24 (λ (k : ℕ). point_step p self.now.x self.now.y self.now.z self.now.w (n + k)) f }
    {
        let mut sums = f;
        for k in 0..24usize {
            let d = self.offset(p, n + k);
            sums = newtonian::add_point_at(self.w[n + k], d, q[k], r[k], sums);
        }
        sums
    }

    // Their field at p, by runs of 24 points, whose roots are taken side by side; n is the number of a run's first point.
    pub fn field(&self, p: Vector) -> Newtonian
        ensures { result ≡ field_of p self.now }
    {
        let mut q = [0.0; 24];
        let mut r = [0.0; 24];
        let mut sums = newtonian::zero_field();
        for n in (0..POINT_COUNT).step_by(24) {
            self.squares(p, n, &mut q);
            lanes::roots(&q, &mut r);
            sums = self.add_points(p, n, &q, &r, sums);
        }
        sums
    }
}
