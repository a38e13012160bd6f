// The field of a tetrahedron's points at eight stations side by side: number q of station k's field stands in lane 8 q + k.
#![tactic(auto)]

ghost use Rattle.std.specs.Prelude.{◌≡◌, ℕ, ◌+◌, ◌≤◌, ◌<◌};
ghost use Rattle.roots.specs.Root.{Root};
ghost use Rattle.newtonian.specs.Vectors.{difference, zero_field};
ghost use Rattle.newtonian.specs.Point.{add_point};
ghost use Rattle.lanes.specs.Lanes.{lane, Lanes};
ghost use Rattle.polyhedron_far_points.specs.Tetrahedral.{point_count, point_at, point_step};
ghost use Rattle.polyhedron_far_points.specs.PointsOf.{field_of};
ghost use Rattle.polyhedron_far_lanes.specs.EightFields.{place_at, field_at, Fields, put, Squares, three_steps};

use newtonian::{Hessian, Newtonian, Vector, difference};
use polyhedron_far_points::{POINT_COUNT, Points};

// The places of eight stations, axis by axis.
#[derive(Clone, Copy)]
struct Stations {
    x: [f64; 8],
    y: [f64; 8],
    z: [f64; 8],
}

impl Stations {
    fn of(places: &[Vector; 8]) -> Self
        ensures x { Lanes 8 (λ (k : ℕ). (place_at places.now k).x) result.x }
        ensures y { Lanes 8 (λ (k : ℕ). (place_at places.now k).y) result.y }
        ensures z { Lanes 8 (λ (k : ℕ). (place_at places.now k).z) result.z }
    {
        let mut x = [0.0; 8];
        let mut y = [0.0; 8];
        let mut z = [0.0; 8];
        for (k, p) in places.iter().enumerate() {
            x[k] = p.x;
            y[k] = p.y;
            z[k] = p.z;
        }
        Stations { x, y, z }
    }

    // Station k's place.
    fn at(&self, k: usize) -> Vector
        requires { k < 8 }
        ensures { result ≡ point_at self.now.x self.now.y self.now.z k }
    {
        Vector {
            x: self.x[k],
            y: self.y[k],
            z: self.z[k],
        }
    }

    // The squared distances of the point u from them, in the lanes from o on: a loop with one body, which is what the compiler makes packed instructions of.
    fn squares(&self, u: Vector, o: usize, q: &mut [f64; 24])
        requires { o + 8 ≤ 24 }
        ensures kept { (i : ℕ) → i < o → lane q.new i ≡ lane q.old i }
        ensures squares { Squares self.now.x self.now.y self.now.z u o q.new }
    {
        for (k, qk) in q[o..o + 8].iter_mut().enumerate() {
            let d = difference(u, self.at(k));
            *qk = newtonian::dot(d, d);
        }
    }
}

// The squared distances and the distances of three points from eight stations: of a point each, from lane 0, 8 and 16 on.
#[derive(Drop)]
struct Distances {
    squares: [f64; 24],
    roots: [f64; 24],
}

// Eight fields.
#[derive(Drop)]
pub struct EightFields {
    pub numbers: [f64; 104],
}

impl EightFields {
    // Eight fields that are zero.
    fn zero() -> Self
        ensures { Fields (λ (k : ℕ). zero_field) result.numbers }
    {
        EightFields {
            numbers: [0.0; 104],
        }
    }

    // Station k's field. Number by number: a loop would fill an array of thirteen, to be taken apart in the same way.
    pub fn at(&self, k: usize) -> Newtonian
        requires { k < 8 }
        ensures { result ≡ field_at self.now.numbers k }
    {
        Newtonian {
            potential: self.numbers[k],
            gradient: Vector {
                x: self.numbers[8 + k],
                y: self.numbers[16 + k],
                z: self.numbers[24 + k],
            },
            hessian: Hessian {
                x: Vector {
                    x: self.numbers[32 + k],
                    y: self.numbers[40 + k],
                    z: self.numbers[48 + k],
                },
                y: Vector {
                    x: self.numbers[56 + k],
                    y: self.numbers[64 + k],
                    z: self.numbers[72 + k],
                },
                z: Vector {
                    x: self.numbers[80 + k],
                    y: self.numbers[88 + k],
                    z: self.numbers[96 + k],
                },
            },
        }
    }

    // Puts v in the place of station k's field.
    #[tactic(auto, unfolding(crate::specs::EightFields::put, newtonian::specs::Fold::Fold, newtonian::specs::Vectors::field_numbers))]
    fn put(&mut self, k: usize, v: Newtonian)
        requires { k < 8 }
        ensures { self.new.numbers ≡ put k v self.old.numbers }
    {
        self.numbers[k] = v.potential;
        self.numbers[8 + k] = v.gradient.x;
        self.numbers[16 + k] = v.gradient.y;
        self.numbers[24 + k] = v.gradient.z;
        self.numbers[32 + k] = v.hessian.x.x;
        self.numbers[40 + k] = v.hessian.x.y;
        self.numbers[48 + k] = v.hessian.x.z;
        self.numbers[56 + k] = v.hessian.y.x;
        self.numbers[64 + k] = v.hessian.y.y;
        self.numbers[72 + k] = v.hessian.y.z;
        self.numbers[80 + k] = v.hessian.z.x;
        self.numbers[88 + k] = v.hessian.z.y;
        self.numbers[96 + k] = v.hessian.z.z;
    }

    // The point u of weight w, added to each of the fields; d holds its distances from o on. By the index, since several arrays are read in step.
    fn add_point(&mut self, w: f64, u: Vector, stations: &Stations, o: usize, d: &Distances)
        requires o_bound { o + 8 ≤ 24 }
        requires squares { Squares stations.now.x stations.now.y stations.now.z u o d.now.squares × Lanes 24 (λ (i : ℕ). Root (lane d.now.squares i)) d.now.roots }
        ensures { Fields (λ (k : ℕ). add_point w (difference u (point_at stations.now.x stations.now.y stations.now.z k)) (field_at self.old.numbers k)) self.new.numbers }
    {
        for k in 0..8usize {
            let p = stations.at(k);
            let f = self.at(k);
            let v = newtonian::add_point_at(
                w,
                difference(u, p),
                d.squares[o + k],
                d.roots[o + k],
                f,
            );
            self.put(k, v);
        }
    }

    // The three points from n on, added to each of the fields. One by one, since a loop over them would need a list of three points beside the lanes where each one's distances begin.
    fn add_three(&mut self, n: usize, points: &Points, stations: &Stations, d: &mut Distances)
        requires { n + 3 ≤ point_count }
        ensures { Fields (λ (k : ℕ). three_steps (point_step (point_at stations.now.x stations.now.y stations.now.z k) points.now.x points.now.y points.now.z points.now.w) n
            (field_at self.old.numbers k)) self.new.numbers }
    {
        let a = points.at(n);
        let b = points.at(n + 1);
        let c = points.at(n + 2);
        stations.squares(a, 0, &mut d.squares);
        stations.squares(b, 8, &mut d.squares);
        stations.squares(c, 16, &mut d.squares);
        lanes::roots(&d.squares, &mut d.roots);
        self.add_point(points.w[n], a, stations, 0, d);
        self.add_point(points.w[n + 1], b, stations, 8, d);
        self.add_point(points.w[n + 2], c, stations, 16, d);
    }

    // The points' fields at the places of eight stations; n is the number of the first of three points.
    pub fn of(places: &[Vector; 8], points: &Points) -> Self
        ensures { Fields (λ (k : ℕ). field_of (place_at places.now k) points.now) result.numbers }
    {
        let stations = Stations::of(places);
        let mut d = Distances {
            squares: [0.0; 24],
            roots: [0.0; 24],
        };
        let mut f = EightFields::zero();
        for n in (0..POINT_COUNT).step_by(3) {
            f.add_three(n, points, &stations, &mut d);
        }
        f
    }
}
