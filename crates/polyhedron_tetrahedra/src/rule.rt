// The quadrature rule of each axis, mapped from (−1, 1) to (0, 1).

ghost use Rattle.std.specs.Prelude.{◌≡◌};
ghost use Rattle.polyhedron_tetrahedra.specs.Mapped.{mapped_nodes, mapped_weights};

// How many points the rule has on each axis.
pub const POINTS: usize = 6;

// The 6-point Gauss-Legendre rule on (0, 1), and no other.
#[derive(Clone, Copy)]
pub struct MappedRule {
    pub nodes: [f64; POINTS],
    pub weights: [f64; POINTS],
    pub ghost nodes_mapped: { nodes ≡ mapped_nodes },
    pub ghost weights_mapped: { weights ≡ mapped_weights },
}

impl MappedRule {
    // By the index, which is the place of a point in four arrays.
    pub fn new() -> Self
        ensures nodes { result.nodes ≡ mapped_nodes }
        ensures weights { result.weights ≡ mapped_weights }
    {
        let rule = legendre::Rule::of_order(POINTS as u32);
        let mut nodes = [0.0; POINTS];
        let mut weights = [0.0; POINTS];
        for i in 0..POINTS {
            nodes[i] = 0.5 * (rule.nodes[i] + 1.0);
            weights[i] = 0.5 * rule.weights[i];
        }
        MappedRule { nodes, weights }
    }
}
