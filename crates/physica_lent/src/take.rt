// Numbers from lent bytes.
ghost use Rattle.std.specs.Prelude.{◌≡◌, ◌*◌, ◌≤◌, length};
ghost use Rattle.sheet_layout.specs.LittleEndian.{unpack, doubles};

// The doubles that the bytes begin with: of a row, the numbers of every kind; of a station, its coordinates.
pub fn numbers_of<const N: usize>(bytes: &[u8]) -> [f64; N]
    requires { 8 * N ≤ length bytes.now }
    ensures { result ≡ doubles (unpack 8 N bytes.now 0) }
{
    let mut numbers = [0.0; N];
    sheet_layout::read_f64s(bytes, 0, &mut numbers);
    numbers
}
