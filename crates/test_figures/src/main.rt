// The worked figures of the Rust's documentation, as values from outside. Prints a line for each that
// holds.
#![tactic(auto)]

use newtonian::{Newtonian, Vector};
use std::io;
use std::io::Write;

// The gravitational constant, in SI units (CODATA 2018).
const G: f64 = 6.6743e-11;

fn within(x: f64, y: f64, tolerance: f64) -> bool {
    doubles::abs(x - y) < tolerance
}

// A line if the figure holds, which the caller has compared.
fn say(output: &mut impl Write, holds: bool, what: &str) -> io::Result<()> {
    if holds {
        writeln!(output, "{what}")?;
    }
    Ok(())
}

// A layer of rock 1 m thick and 4,000 km wide, of 2,670 kg/m³, pulls 0.112 mGal on top: 2πGρ per metre.
fn bouguer(output: &mut impl Write, f: Newtonian) -> io::Result<()> {
    let g = f.gradient;
    say(
        output,
        within(-g.z * G * 2670.0 / 1e-5, 0.11197, 1e-5),
        "Bouguer gradient: 0.11197 mGal/m",
    )?;
    say(
        output,
        within(-g.z / (2.0 * doubles::PI), 1.0, 1e-6),
        "Bouguer gradient: 2 pi",
    )
}

// Poisson: the Hessian's trace is -4π inside the body, and 0 outside.
fn trace(f: Newtonian) -> f64 {
    let h = f.hessian;
    h.x.x + h.y.y + h.z.z
}

fn main(rt: HostRuntime) -> io::Result<()> {
    let mut output = io::writer(&rt);
    let layer = prism::prism(
        Vector::from([0.0, 0.0, 0.0]),
        Vector::from([-2e6, -2e6, -1.0]),
        Vector::from([2e6, 2e6, 0.0]),
    );
    if let Ok(f) = layer {
        bouguer(&mut output, f)?;
    }
    let inside = prism::prism(
        Vector::from([0.3, 0.2, 0.6]),
        Vector::from([0.0, 0.0, 0.0]),
        Vector::from([1.0, 2.0, 3.0]),
    );
    if let Ok(f) = inside {
        say(
            &mut output,
            within(trace(f), -4.0 * doubles::PI, 1e-13),
            "trace inside: -4 pi",
        )?;
    }
    let outside = prism::prism(
        Vector::from([0.3, 0.2, 3.6]),
        Vector::from([0.0, 0.0, 0.0]),
        Vector::from([1.0, 2.0, 3.0]),
    );
    if let Ok(f) = outside {
        say(
            &mut output,
            within(trace(f), 0.0, 1e-13),
            "trace outside: 0",
        )?;
    }
    Ok(())
}
