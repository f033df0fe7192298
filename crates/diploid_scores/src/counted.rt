// A count with the logarithm of its factorial, of which binomial coefficients are made (docs/RULES.md, K7).
ghost use Rattle.std.specs.Prelude.{◌≡◌, ◌+◌, ◌≤◌};
ghost use Rattle.kernels_gamma.specs.Binomial.{ln_pmf};
ghost use Rattle.diploid_scores.specs.Scores.{full_ln_factorial};

use kernels_gamma::binomial::ln_pmf_by;
use kernels_gamma::gamma::ln_gamma;

// By the full log gamma.
#[derive(Clone, Copy)]
pub(crate) struct Counted {
    pub(crate) count: u32,
    log: f64,
    ghost is: { log ≡ full_ln_factorial count },
}

impl Counted {
    pub(crate) fn new(count: u32) -> Counted
        ensures { result.count ≡ count }
    {
        Counted {
            count,
            log: ln_gamma(count as f64 + 1.0),
        }
    }
}

// The binomial log probability of k among n at p, where `rest` is what is left of n.
pub(crate) fn ln_pmf(k: Counted, rest: Counted, n: Counted, p: f64) -> f64
    requires { (k.count + rest.count ≡ n.count) × (n.count ≤ 3000000) }
    ensures { result ≡ ln_pmf k.count n.count p }
{
    ln_pmf_by(n.log - k.log - rest.log, k.count, n.count, p)
}
