// The scores of the three states where two alternatives are told apart (docs/RULES.md, G2, Phased).
ghost use Rattle.std.specs.Prelude.{◌≡◌, ◌+◌, ◌≤◌};
ghost use Rattle.floats.specs.MaxMin.{larger};
ghost use Rattle.diploid_scores.specs.Scores.{one_way, either_way, phased_scores};

use crate::counted::{Counted, ln_pmf};
use crate::prior::with_prior;
use diploid_models::model::Model;
use diploid_qualities::scores::Scores;
use floats::max_min::max;
use kernels::exp::exp;
use kernels::ln::ln;

// One way round of a phased Het: `other` is error, `this` shares the remaining reads with the reference.
fn one_way(model: Model, total: Counted, reference: Counted, this: Counted, other: Counted) -> f64
    requires { (total.count ≡ reference.count + this.count + other.count) × (total.count ≤ 3000000) }
    ensures { result ≡ one_way model reference.count this.count other.count total.count }
{
    let means = model.means;
    let remaining = Counted::new(reference.count + this.count);
    let first = ln_pmf(other, remaining, total, means[0]);
    if remaining.count == 0 {
        return first + 0.0;
    }
    first + ln_pmf(this, reference, remaining, means[1])
}

// ln (exp a + exp b), by way of the larger.
fn either_way(a: f64, b: f64) -> f64
    ensures { result ≡ either_way larger a b }
{
    let max_het = max(a, b);
    max_het + ln(exp(a - max_het) + exp(b - max_het))
}

// Each log factorial that a coefficient is made of is worked once.
pub(crate) fn phased_scores(model: Model, reference: u32, alt1: u32, alt2: u32) -> Scores
    requires { reference + alt1 + alt2 ≤ 3000000 }
    ensures { result ≡ phased_scores larger model reference alt1 alt2 }
{
    let means = model.means;
    let alt = Counted::new(alt1 + alt2);
    let total = Counted::new(reference + alt1 + alt2);
    let reference = Counted::new(reference);
    let first = Counted::new(alt1);
    let second = Counted::new(alt2);
    let ll_00 = ln_pmf(reference, alt, total, 1.0 - means[0]);
    let ll_01 = either_way(
        one_way(model, total, reference, first, second),
        one_way(model, total, reference, second, first),
    );
    let ll_11 = ln_pmf(alt, reference, total, means[2]);
    Scores {
        homref: with_prior(model, 0, ll_00),
        het: with_prior(model, 1, ll_01),
        homalt: with_prior(model, 2, ll_11),
    }
}
