// An array of zeros, by a function of its own, so that proofs say `replicate` and not the zeros themselves.
ghost use Rattle.std.specs.Prelude.{◌≡◌, replicate};

pub fn zeros<const N: usize>() -> [u16; N]
    ensures { result ≡ replicate N 0 }
{
    [0u16; N]
}
