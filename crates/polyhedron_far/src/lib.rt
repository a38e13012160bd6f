// The far fields of a block of eight stations, with one walk over the faces for all of them: a face's points are made once.
#![tactic(auto)]

ghost use Rattle.std.specs.Prelude.{◌≡◌, not, ℕ, ◌+◌, ◌<◌, length, count_by};
ghost use Rattle.newtonian.specs.Fold.{Fold};
ghost use Rattle.mesh.specs.Surface.{face_count};
ghost use Rattle.polyhedron_neumaier.specs.Neumaier.{no_sums};
ghost use Rattle.polyhedron_tetrahedra.specs.Tetrahedra.{add_tetrahedron};
ghost use Rattle.polyhedron_far_lanes.specs.EightFields.{place_at};
ghost use Rattle.polyhedron_far.specs.Far.{sums_at, FarSums, PointsAdded};

use mesh::surface::{FaceRange, Mesh};
use newtonian::Vector;
use polyhedron_far_lanes::EightFields;
use polyhedron_far_points::Points;
use polyhedron_neumaier::Sums;
use polyhedron_tetrahedra::MappedRule;

// From so many far stations on, lanes for all eight cost less than the far ones one by one.
const MANY: usize = 8;

// Eight stations, of which some are near the body and the others far.
#[derive(Clone, Copy)]
pub struct Block {
    pub places: [Vector; 8],
    pub near: [bool; 8],
}

// The sums of a block before the first face.
pub fn no_far_sums() -> [Sums; 8]
    ensures { (length result ≡ 8) × ((i : ℕ) → i < 8 → sums_at result i ≡ no_sums) }
{
    let one = Sums::new();
    [one; 8]
}

impl Block {
    // How many of its stations are far.
    fn far_count(&self) -> usize
        ensures { result ≡ count_by not self.now.near }
    {
        self.near.iter().filter(|near| !**near).count()
    }

    // The points' fields, added to the sums of the far stations, station by station.
    fn add_one_by_one(&self, points: &Points, sums: &mut [Sums; 8])
        ensures { PointsAdded self.now points.now sums.old sums.new }
    {
        for (i, own) in sums.iter_mut().enumerate() {
            if !self.near[i] {
                let f = points.field(self.places[i]);
                own.add(&f.into());
            }
        }
    }

    // The same, with the fields of all eight stations taken side by side.
    fn add_by_lanes(&self, points: &Points, sums: &mut [Sums; 8])
        ensures { PointsAdded self.now points.now sums.old sums.new }
    {
        let fields = EightFields::of(&self.places, points);
        for (k, own) in sums.iter_mut().enumerate() {
            if !self.near[k] {
                own.add(&fields.at(k).into());
            }
        }
    }

    // The same, by lanes where many of the eight stations are far.
    fn add_points(&self, points: &Points, sums: &mut [Sums; 8])
        ensures { PointsAdded self.now points.now sums.old sums.new }
    {
        if MANY <= self.far_count() {
            self.add_by_lanes(points, sums)
        } else {
            self.add_one_by_one(points, sums)
        }
    }

    // The tetrahedron over face k, added to the sums of each far station; points is room for its points. The bound on k is the number's own (polyhedron_edge_face_sums, `triangle_of`).
    fn add_far_face(
        &self,
        apex: Vector,
        mesh: Mesh,
        k: usize,
        rule: &MappedRule,
        points: &mut Points,
        sums: &mut [Sums; 8],
    )
        requires { k < face_count mesh.faces.now }
        ensures { let m = mesh.entry in
            FarSums self.now.near (λ (i : ℕ). add_tetrahedron (place_at self.now.places i) apex m.verts.now m.faces.now k) sums.old sums.new }
    {
        let b = mesh.corner(k, 0);
        let c = mesh.corner(k, 1);
        let d = mesh.corner(k, 2);
        let s = polyhedron_tetrahedra::over_face(apex, b, c, d);
        points.fill(apex, s, rule);
        self.add_points(points, sums);
    }

    // The tetrahedra over the faces of the range, by their numbers, which the definition and the mesh's methods take, added to the sums of each far station.
    fn add_tetrahedra(&self, apex: Vector, range: FaceRange, sums: &mut [Sums; 8])
        ensures { let r = range.entry in
            FarSums self.now.near (λ (i : ℕ). Fold r.n (λ (k : ℕ). add_tetrahedron (place_at self.now.places i) apex r.mesh.verts.now r.mesh.faces.now (r.first + k))) sums.old sums.new }
    {
        let rule = MappedRule::new();
        let mut points = Points::new();
        for k in 0..range.n {
            self.add_far_face(apex, range.mesh, range.first + k, &rule, &mut points, sums);
        }
    }

    // The same; where no station of the block is far, no points are made.
    pub fn add_far_faces(&self, apex: Vector, range: FaceRange, sums: &mut [Sums; 8])
        ensures { let r = range.entry in
            FarSums self.now.near (λ (i : ℕ). Fold r.n (λ (k : ℕ). add_tetrahedron (place_at self.now.places i) apex r.mesh.verts.now r.mesh.faces.now (r.first + k))) sums.old sums.new }
    {
        if self.far_count() > 0 {
            self.add_tetrahedra(apex, range, sums);
        }
    }
}
