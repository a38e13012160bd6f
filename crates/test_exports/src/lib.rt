// Inner functions for C and Rust, for the drivers that compare them with the reference build and time them.
#![tactic(auto)]

ghost use Rattle.std.specs.Prelude.{◌≡◌};
ghost use Rattle.roots.specs.Root.{Root};

#[unsafe(no_mangle)]
pub extern "C" fn test_root(x: f64) -> f64
    ensures { result ≡ Root x }
{
    roots::root(x)
}
