// Gauss-Legendre quadrature on [-1, 1]: the nodes and weights of an order from 1 to 16.
#![tactic(auto)]

mod table;

ghost use Rattle.std.specs.Prelude.{◌≡◌, ◌+◌, ◌≤◌, length};
ghost use Rattle.legendre.specs.Table.{table};
ghost use Rattle.legendre.specs.GaussLegendre.{max_order, entry, padded, gauss_legendre};

use refusals::Refusal;
use table::TABLE;

pub const MAX_ORDER: usize = 16;

// n nodes and n weights of each order n.
const ENTRIES: usize = MAX_ORDER * (MAX_ORDER + 1);

// count nodes, ascending, and as many weights, with zeros after them.
#[derive(Clone, Copy, Debug, PartialEq)]
pub struct Rule {
    pub count: usize,
    pub nodes: [f64; MAX_ORDER],
    pub weights: [f64; MAX_ORDER],
}

// The n entries of the table from start on, with zeros after them. t is the whole table, and n no length of it.
fn padded(t: &[u64; ENTRIES], start: usize, n: usize) -> [f64; MAX_ORDER]
    requires { (t.now ≡ table) × (n ≤ max_order) × (start + n ≤ length table) }
    ensures { result ≡ padded n (λ i. entry (start + i)) }
{
    let mut r = [0.0; MAX_ORDER];
    for (i, x) in r[..n].iter_mut().enumerate() {
        *x = f64::from_bits(t[start + i]);
    }
    r
}

impl Rule {
    ghost use Rattle.std.specs.Prelude.{◌≡◌, ◌≤◌};
    ghost use Rattle.legendre.specs.GaussLegendre.{max_order, rule};

    // The rule of an order up to 16; that of 0 has no nodes.
    pub fn of_order(order: u32) -> Rule
        requires { order ≤ max_order }
        ensures { result ≡ rule order }
    {
        let n = order as usize;
        // A constant array is built anew at each use, so it is used once.
        let t = TABLE;
        let nodes = padded(&t, n * n - n, n);
        let weights = padded(&t, n * n, n);
        Rule {
            count: n,
            nodes,
            weights,
        }
    }
}

// The rule of an order. Outside 1 to 16 it is refused by 14.
pub fn gauss_legendre(order: u32) -> Result<Rule, Refusal>
    ensures { result ≡ gauss_legendre order }
{
    if order < 1 {
        return Err(Refusal::OutsideDomain);
    }
    if MAX_ORDER < order as usize {
        return Err(Refusal::OutsideDomain);
    }
    Ok(Rule::of_order(order))
}
