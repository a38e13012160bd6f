// The mate of an edge use, the use that is its reverse.
ghost use Rattle.std.specs.Prelude.{◌≡◌, ◌<◌, length};
ghost use Rattle.lists.specs.Sort.{Sorted, LowerBound};
ghost use Rattle.mesh_orders.specs.Edges.{edge};
ghost use Rattle.mesh_orders.specs.Order.{Uses};
ghost use Rattle.mesh_orders.specs.Mates.{mate};

use crate::edges::{edge, reverse};
use crate::order::OrderedFaces;

// The first place of the order list whose edge is at least e. Every entry is a use; the test is for `partition_point`, which asks for a closure that may be called at any number.
fn lower(faces: &[u32], order: &[u32], e: u64) -> usize
    requires { Uses faces.now order.now × Sorted (edge faces.now) order.now }
    ensures { LowerBound (edge faces.now) order.now e result }
{
    order.partition_point(|w| (*w as usize) < faces.len() && edge(faces, *w) < e)
}

impl<'a> OrderedFaces<'a> {
    // The use that is the reverse of use u, or 3F where there is none, by a search in the order list.
    pub fn mate(self, u: u32) -> u32
        requires { u < length self.faces.now }
        ensures { result ≡ mate self.entry.faces.now u }
    {
        let e = reverse(self.faces, u);
        let i = lower(self.faces, self.order, e);
        match self.order.get(i) {
            Some(&w) if edge(self.faces, w) == e => w,
            _ => self.faces.len() as u32,
        }
    }
}
