// The edge uses of a face list.
ghost use Rattle.std.specs.Prelude.{◌≡◌, ◌%◌};
ghost use Rattle.mesh_orders.specs.Edges.{next, from, to, edge_number, edge, reverse, IsUse};

// The limits of document 01.
pub const MAX_VERTICES: usize = 20000;

pub const MAX_FACES: usize = 32768;

pub const MAX_STATIONS: usize = 65536;

// The vertex that edge use u leaves. That u is a use is asked of the number, here and below: a use with its list, in a struct, would be made for each.
pub fn start(faces: &[u32], u: u32) -> u32
    requires { IsUse faces.now u }
    ensures { result ≡ from faces.now u }
{
    faces[u as usize]
}

// The place in the face list of the corner after corner u, in the same face.
fn next(u: u32) -> usize
    ensures { result ≡ next u }
{
    let i = u as usize;
    if i % 3 == 2 { i - 2 } else { i + 1 }
}

// The vertex that edge use u reaches.
pub fn end(faces: &[u32], u: u32) -> u32
    requires { IsUse faces.now u }
    ensures { result ≡ to faces.now u }
{
    faces[next(u)]
}

// An edge as one number, from · 2³² + to.
pub fn number(from: u32, to: u32) -> u64
    ensures { result ≡ edge_number from to }
{
    u64::from(from) * 0x1_0000_0000 + u64::from(to)
}

// The edge of use u.
pub fn edge(faces: &[u32], u: u32) -> u64
    requires { IsUse faces.now u }
    ensures { result ≡ edge faces.now u }
{
    number(start(faces, u), end(faces, u))
}

// The reverse of the edge of use u.
pub fn reverse(faces: &[u32], u: u32) -> u64
    requires { IsUse faces.now u }
    ensures { result ≡ reverse faces.now u }
{
    number(end(faces, u), start(faces, u))
}
