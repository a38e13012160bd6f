// The scans of `check_mesh`: the first number, corner or place of the order list that fails a test.
ghost use Rattle.std.specs.Prelude.{◌≡◌, true, ◌*◌, ◌<◌, ◌≤◌, length, leb};
ghost use Rattle.refusals.specs.Causes.{unless};
ghost use Rattle.refusals.specs.declared.Refusal.TheVariants.{OutOfLimits};
ghost use Rattle.lists.specs.Count.{Below};
ghost use Rattle.lists.specs.CountingSort.{Placed};
ghost use Rattle.mesh_orders.specs.Edges.{from, to, occurrences, max_faces};
ghost use Rattle.mesh_orders.specs.Endpoint.{endpoint};
ghost use Rattle.mesh_orders.specs.Order.{order_list, Uses};
ghost use Rattle.mesh.specs.Check.{out_of_limits, no_such_vertex, flipped_edge, open_edge};

use doubles::within_limits;
use mesh_orders::edges::{edge, end, reverse, start};
use mesh_orders::order::{OrderedFaces, pass};
use refusals::Refusal;

// Whether all numbers are within the limits. It does not stop at the first that is not, so that the compiler can test several at a time.
fn all_within_limits(numbers: &[f64]) -> bool
    ensures { unless result OutOfLimits ≡ out_of_limits numbers.now }
{
    numbers.iter().fold(true, |all, x| all & within_limits(*x))
}

// Cause 3: a number that is not finite, or over 10⁹.
pub fn out_of_limits(numbers: &[f64]) -> Result<(), Refusal>
    ensures { result ≡ out_of_limits numbers.now }
{
    if all_within_limits(numbers) {
        return Ok(());
    }
    Err(Refusal::OutOfLimits)
}

// Whether all corners are below a number of 32 bits, of which a packed instruction compares four. Nor does it stop.
fn all_below(vertices: u32, faces: &[u32]) -> bool
    ensures { result ≡ true → no_such_vertex vertices faces.now ≡ Ok tt }
{
    faces.iter().fold(true, |all, v| all & (*v < vertices))
}

fn all_name_vertices(vertices: usize, faces: &[u32]) -> bool
    ensures { result ≡ true → no_such_vertex vertices faces.now ≡ Ok tt }
{
    match u32::try_from(vertices) {
        Ok(n) => all_below(n, faces),
        Err(_) => false,
    }
}

// Cause 4: the face of the first corner that names none of the vertices. It is looked for only where there is one. How long the list is, is asked for, so that a face's
// number is a u32: before this cause is tried the lists are no `Mesh`.
pub fn no_such_vertex(vertices: usize, faces: &[u32]) -> Result<(), Refusal>
    requires { length faces.now ≤ 3 * max_faces }
    ensures { result ≡ no_such_vertex vertices faces.now }
{
    if all_name_vertices(vertices, faces) {
        return Ok(());
    }
    for (i, v) in faces.iter().enumerate() {
        if vertices <= *v as usize {
            return Err(Refusal::NoSuchVertex((i / 3) as u32));
        }
    }
    Ok(())
}

// Cause 5: the first edge in the order list that occurs twice, which stands at the next place too.
pub fn flipped_edge(ordered: OrderedFaces) -> Result<(), Refusal>
    ensures { let f = ordered.entry.faces.now in result ≡ flipped_edge f (order_list f) }
{
    for pair in ordered.order.windows(2) {
        let u = pair[0];
        if edge(ordered.faces, u) == edge(ordered.faces, pair[1]) {
            return Err(Refusal::Flipped(start(ordered.faces, u), end(ordered.faces, u)));
        }
    }
    Ok(())
}

// Whether the reverse of use u's edge occurs. w is a guess at the use that has it.
fn has_reverse(ordered: OrderedFaces, u: u32, w: u32) -> bool
    requires { (u < length ordered.faces.now) × (w < length ordered.faces.now) }
    ensures { let f = ordered.entry.faces.now in result ≡ leb 1 (occurrences f (to f u) (from f u)) }
{
    edge(ordered.faces, w) == reverse(ordered.faces, u)
        || (ordered.mate(u) as usize) < ordered.faces.len()
}

// Cause 6, with a guess for the reverse of each use in the order list.
fn first_open(ordered: OrderedFaces, guesses: &[u32]) -> Result<(), Refusal>
    requires { let f = ordered.faces.now in Uses f guesses.now × (length guesses.now ≡ length f) }
    ensures { let f = ordered.entry.faces.now in result ≡ open_edge f (order_list f) }
{
    for (i, &u) in ordered.order.iter().enumerate() {
        if !has_reverse(ordered, u, guesses[i]) {
            return Err(Refusal::Open(start(ordered.faces, u), end(ordered.faces, u)));
        }
    }
    Ok(())
}

// Cause 6: the first edge in the order list whose reverse does not occur. Where every reverse occurs, once, the uses by to and from are the reverses of those by from
// and to, place by place. They go into the spare list, with a counter for each vertex.
pub fn open_edge(
    ordered: OrderedFaces,
    counts: &mut [u32],
    spare: &mut [u32],
) -> Result<(), Refusal>
    requires { let f = ordered.faces.now in Below f (length counts.old) × (length spare.old ≡ length f) }
    ensures value { let f = ordered.entry.faces.now in result ≡ open_edge f (order_list f) }
    ensures placed { let f = ordered.entry.faces.now in Placed (endpoint true f) (order_list f) spare.new }
{
    pass(ordered.order, |u| end(ordered.faces, u), counts, spare);
    first_open(ordered, spare)
}
