// The mates as bytes, four to each edge use and the lowest first, for the sheet.
ghost use Rattle.std.specs.Prelude.{◌≡◌, List, ℕ, length};
ghost use Rattle.std.proofs.lemmas.List.Edits.{sets};
ghost use Rattle.lists.specs.Count.{Below};
ghost use Rattle.mesh_orders.specs.Order.{order_list};
ghost use Rattle.mesh_orders.specs.Mates.{mates};
ghost use Rattle.sheet_layout.specs.LittleEndian.{pack};
ghost use Rattle.mesh_check.specs.CheckedMates.{HoldsMates, MatesRoom};

use sheet_layout::put_u32;

// Writes the mate of each use at the use's place; entry k of partners is the mate of entry k of the order list. Where no bytes are lent, none are written.
pub(crate) fn put_mates(order: &[u32], partners: &[u32], out: &mut [u8])
    requires { Below order.now (length order.now) × (length partners.now ≡ length order.now) × MatesRoom (length order.now) (length out.old) }
    ensures { (f : List ℕ) → order.now ≡ order_list f → HoldsMates f partners.now → out.new ≡ sets out.old 0 (pack 4 (mates f)) }
{
    if out.is_empty() {
        return;
    }
    for (k, &u) in order.iter().enumerate() {
        put_u32(out, 4 * u as usize, partners[k]);
    }
}
