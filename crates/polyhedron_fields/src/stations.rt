// A block of stations.
ghost use Rattle.std.specs.Prelude.{◌≡◌, false, ℕ, ◌+◌, ◌/◌, ◌≤◌, ◌<◌, length, get_or};
ghost use Rattle.mesh_orders.specs.Edges.{2³²};
ghost use Rattle.mesh.specs.Surface.{vertex};
ghost use Rattle.polyhedron_blocks.specs.Blocks.{block_size, no_vector};
ghost use Rattle.polyhedron_fields.specs.Walked.{is_near};

use newtonian::Vector;
use polyhedron_blocks::STATIONS;
use polyhedron_centroid::Center;

// The places of n stations, at most eight, from the one with the number first on. What makes one of a number and a count asks for both facts.
#[derive(Clone, Copy)]
pub struct StationRange {
    pub places: [Vector; STATIONS],
    pub first: usize,
    pub n: usize,
    pub ghost few: { n ≤ block_size },
    pub ghost within: { first + n ≤ 2³² },
}

impl StationRange {
    // Of a list of stations, the n from the one with the number first on.
    pub fn of(stations: &[f64], first: usize, n: usize) -> Self
        requires { (n ≤ block_size) × (first + n ≤ length stations.now / 3) × (first + n ≤ 2³²) }
        ensures range { (result.first ≡ first) × (result.n ≡ n) }
        ensures places { (j : ℕ) → j < result.n → get_or result.places j no_vector ≡ vertex stations.now (result.first + j) }
    {
        let mut places = [Vector {
            x: 0.0,
            y: 0.0,
            z: 0.0,
        }; STATIONS];
        for (j, place) in places[..n].iter_mut().enumerate() {
            // A station is three coordinates, as a vertex is.
            *place = mesh::surface::vertex(stations, (first + j) as u32);
        }
        StationRange { places, first, n }
    }

    // The number of station j of the block.
    pub fn number(&self, j: usize) -> u32
        requires { j < self.now.n }
        ensures { result ≡ self.now.first + j }
    {
        (self.first + j) as u32
    }

    // Which stations are near; rest for the places past them.
    pub fn near(&self, center: Center, rest: bool) -> [bool; STATIONS]
        ensures { (j : ℕ) → j < self.now.n → get_or result j false ≡ is_near (get_or self.now.places j no_vector) center.centroid center.radius }
    {
        let mut near = [rest; STATIONS];
        for (j, is_near) in near[..self.n].iter_mut().enumerate() {
            *is_near = !polyhedron::is_far(self.places[j], center);
        }
        near
    }
}
