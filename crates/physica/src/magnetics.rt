// Magnetic fields and demagnetisation. C passes pointers to numbers, so vectors and tensors come as arrays.
ghost use Rattle.anomaly.specs.Body.{body};
ghost use Rattle.anomaly.specs.TotalField.{total_field};
ghost use Rattle.anomaly_sphere.specs.Sphere.{sphere};
ghost use Rattle.anomaly_cylinder.specs.Cylinder.{cylinder};
ghost use Rattle.demagnetisation.specs.Ellipsoid.{ellipsoid_factors};
ghost use Rattle.demagnetisation.specs.Magnetisation.{magnetisation, koenigsberger};
ghost use Rattle.newtonian.specs.Vectors.{vector_numbers};
ghost use Rattle.physica_lent.specs.Exported.{vector_of, hessian_of, itself, Gives};

use newtonian::{Hessian, Vector};
use physica_lent::give::give;

// The field (T) of a body of that Hessian and magnetisation: 3.
#[unsafe(no_mangle)]
pub extern "C" fn physica_body(
    hessian: &[f64; 9],
    magnetisation: &[f64; 3],
    out: &mut [f64; 3],
) -> u32
    ensures { Gives vector_numbers (body (hessian_of hessian.now) (vector_of magnetisation.now)) result out.old out.new }
{
    let field = anomaly::body(Hessian::from(*hessian), Vector::from(*magnetisation));
    give(field, out)
}

// The total-field anomaly (T): 3.
#[unsafe(no_mangle)]
pub extern "C" fn physica_total_field(ambient: &[f64; 3], anomaly: &[f64; 3], out: &mut f64) -> u32
    ensures { Gives itself (total_field (vector_of ambient.now) (vector_of anomaly.now)) result out.old out.new }
{
    give(
        anomaly::total_field(Vector::from(*ambient), Vector::from(*anomaly)),
        out,
    )
}

// The field (T) at p of a sphere: 3, 14.
#[unsafe(no_mangle)]
pub extern "C" fn physica_sphere(
    p: &[f64; 3],
    centre: &[f64; 3],
    radius: f64,
    magnetisation: &[f64; 3],
    out: &mut [f64; 3],
) -> u32
    ensures { Gives vector_numbers (sphere (vector_of p.now) (vector_of centre.now) radius (vector_of magnetisation.now)) result out.old out.new }
{
    give(
        anomaly_sphere::sphere(
            Vector::from(*p),
            Vector::from(*centre),
            radius,
            Vector::from(*magnetisation),
        ),
        out,
    )
}

// The field (T) at p of an endless cylinder: 3, 14.
#[unsafe(no_mangle)]
pub extern "C" fn physica_cylinder(
    p: &[f64; 3],
    point: &[f64; 3],
    axis: &[f64; 3],
    radius: f64,
    magnetisation: &[f64; 3],
    out: &mut [f64; 3],
) -> u32
    ensures { Gives vector_numbers (cylinder (vector_of p.now) (vector_of point.now) (vector_of axis.now) radius (vector_of magnetisation.now)) result out.old out.new }
{
    give(
        anomaly_cylinder::cylinder(
            Vector::from(*p),
            Vector::from(*point),
            Vector::from(*axis),
            radius,
            Vector::from(*magnetisation),
        ),
        out,
    )
}

// The demagnetising factors of an ellipsoid: 3, 14, 15.
#[unsafe(no_mangle)]
pub extern "C" fn physica_ellipsoid_factors(a: f64, b: f64, c: f64, out: &mut [f64; 3]) -> u32
    ensures { Gives vector_numbers (ellipsoid_factors a b c) result out.old out.new }
{
    give(demagnetisation::ellipsoid_factors(a, b, c), out)
}

// The magnetisation (A/m) of a body of demagnetising tensor n: 3.
#[unsafe(no_mangle)]
pub extern "C" fn physica_magnetisation(
    chi: f64,
    h0: &[f64; 3],
    remanent: &[f64; 3],
    n: &[f64; 9],
    out: &mut [f64; 3],
) -> u32
    ensures { Gives vector_numbers (magnetisation chi (vector_of h0.now) (vector_of remanent.now) (hessian_of n.now)) result out.old out.new }
{
    let (h0, remanent) = (Vector::from(*h0), Vector::from(*remanent));
    let answer = demagnetisation::magnetisation(chi, h0, remanent, Hessian::from(*n));
    give(answer, out)
}

// The ratio of remanent to induced magnetisation: 3.
#[unsafe(no_mangle)]
pub extern "C" fn physica_koenigsberger(
    remanent: &[f64; 3],
    chi: f64,
    h0: &[f64; 3],
    out: &mut f64,
) -> u32
    ensures { Gives itself (koenigsberger (vector_of remanent.now) chi (vector_of h0.now)) result out.old out.new }
{
    give(
        demagnetisation::koenigsberger(Vector::from(*remanent), chi, Vector::from(*h0)),
        out,
    )
}
