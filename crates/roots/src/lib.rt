// The square root of an f64, as IEEE 754 has it.
#![tactic(auto)]

ghost use Rattle.std.specs.Prelude.{◌≡◌};
ghost use Rattle.roots.specs.Root.{Root};

#[tactic(auto, using(crate::proofs::SqrtIsRoot::sqrt_is_root))]
pub fn root(x: f64) -> f64
    ensures { result ≡ Root x }
{
    x.sqrt()
}
