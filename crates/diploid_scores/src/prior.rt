// How the fraction of a state enters its score (docs/RULES.md, G2).
ghost use Rattle.std.specs.Prelude.{◌≡◌, ◌<◌};
ghost use Rattle.floats.specs.F64.{◌⊕◌};
ghost use Rattle.kernels.specs.Ln.{ln_of};
ghost use Rattle.diploid_scores.specs.Scores.{fraction};

use diploid_models::model::Model;
use kernels::ln::ln;

// A state's score: the logarithm of its fraction, plus its log likelihood.
pub(crate) fn with_prior(model: Model, i: usize, likelihood: f64) -> f64
    requires { i < 3 }
    ensures { result ≡ ln_of (fraction model i) ⊕ likelihood }
{
    ln(model.fractions[i]) + likelihood
}
