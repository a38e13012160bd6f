// Shape models as Wavefront OBJ text: what a line says, and how many vertices and faces there are. The definitions are in specs/; obj_lines and obj_reader read, obj_writer writes.
#![tactic(auto)]

// What a right line of the text says.
#[derive(Clone, Copy)]
pub enum Line {
    // a blank line or a comment
    Nothing,
    // a vertex, by its three coordinates
    Vertex(f64, f64, f64),
    // a face, by its three vertex numbers, counted from 0
    Face(u64, u64, u64),
}

// V and F of the mesh that `read_obj` has read.
#[derive(Clone, Copy)]
pub struct Counts {
    pub vertices: u32,
    pub faces: u32,
}
