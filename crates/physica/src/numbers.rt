// Calls on numbers: Carlson's integrals, the complete elliptic integrals, the ring, the rules of quadrature.
ghost use Rattle.carlson.specs.Rc.{carlson_rc};
ghost use Rattle.special.specs.Domain.{carlson_rf, carlson_rd, carlson_rj};
ghost use Rattle.rings.specs.Elliptic.{complete_elliptic};
ghost use Rattle.rings.specs.Cel.{cel};
ghost use Rattle.rings.specs.Ring.{ring};
ghost use Rattle.legendre.specs.GaussLegendre.{gauss_legendre};
ghost use Rattle.physica_lent.specs.Exported.{Gives, itself, complete_numbers, ring_numbers, nodes_of, weights_of};

use physica_lent::give::{give, give_rule};

// R_C(x, y): 14, 15.
#[unsafe(no_mangle)]
pub extern "C" fn physica_carlson_rc(x: f64, y: f64, out: &mut f64) -> u32
    ensures { Gives itself (carlson_rc x y) result out.old out.new }
{
    give(carlson::carlson_rc(x, y), out)
}

// R_F(x, y, z): 14, 15.
#[unsafe(no_mangle)]
pub extern "C" fn physica_carlson_rf(x: f64, y: f64, z: f64, out: &mut f64) -> u32
    ensures { Gives itself (carlson_rf x y z) result out.old out.new }
{
    give(special::carlson_rf(x, y, z), out)
}

// R_D(x, y, z): 14, 15.
#[unsafe(no_mangle)]
pub extern "C" fn physica_carlson_rd(x: f64, y: f64, z: f64, out: &mut f64) -> u32
    ensures { Gives itself (carlson_rd x y z) result out.old out.new }
{
    give(special::carlson_rd(x, y, z), out)
}

// R_J(x, y, z, p): 14, 15.
#[unsafe(no_mangle)]
pub extern "C" fn physica_carlson_rj(x: f64, y: f64, z: f64, p: f64, out: &mut f64) -> u32
    ensures { Gives itself (carlson_rj x y z p) result out.old out.new }
{
    give(special::carlson_rj(x, y, z, p), out)
}

// K(m) and E(m): 14.
#[unsafe(no_mangle)]
pub extern "C" fn physica_complete_elliptic(m: f64, out: &mut [f64; 2]) -> u32
    ensures { Gives complete_numbers (complete_elliptic m) result out.old out.new }
{
    give(rings::complete_elliptic(m), out)
}

// Bulirsch's cel(k_c, p, a, b): 14.
#[unsafe(no_mangle)]
pub extern "C" fn physica_cel(kc: f64, p: f64, a: f64, b: f64, out: &mut f64) -> u32
    ensures { Gives itself (cel kc p a b) result out.old out.new }
{
    give(rings::cel(kc, p, a, b), out)
}

// The average of 1/r over a ring, and its derivatives by ρ and z: 3, 14.
#[unsafe(no_mangle)]
pub extern "C" fn physica_ring(radius: f64, rho: f64, z: f64, out: &mut [f64; 3]) -> u32
    ensures { Gives ring_numbers (ring radius rho z) result out.old out.new }
{
    give(rings::ring(radius, rho, z), out)
}

// The nodes and weights of an order, with zeros after them: 14.
#[unsafe(no_mangle)]
pub extern "C" fn physica_gauss_legendre(
    order: u32,
    nodes: &mut [f64; 16],
    weights: &mut [f64; 16],
) -> u32
    ensures nodes { Gives nodes_of (gauss_legendre order) result nodes.old nodes.new }
    ensures weights { Gives weights_of (gauss_legendre order) result weights.old weights.new }
{
    give_rule(legendre::gauss_legendre(order), nodes, weights)
}
