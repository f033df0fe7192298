// The scores of the three states where alternative reads are not told apart (docs/RULES.md, G2, Beta and Bino).
ghost use Rattle.std.specs.Prelude.{◌≡◌, ◌<◌};
ghost use Rattle.kernels_gamma.specs.Binomial.{ln_choose};
ghost use Rattle.diploid_scores.specs.Scores.{beta_ln_pmf, beta_score, beta_scores, bino_score, bino_scores};

use crate::prior::with_prior;
use diploid_models::model::Model;
use diploid_qualities::scores::Scores;
use kernels_gamma::binomial::{ln_choose, ln_pmf_by};
use kernels_gamma::gamma::ln_gamma;

// Alternative reads among all, with their coefficient, which is worked once: it is the same for all three states.
#[derive(Clone, Copy)]
struct Drawn {
    alt: u32,
    total: u32,
    choose: f64,
    ghost is: { choose ≡ ln_choose alt total },
}

impl Drawn {
    fn new(alt: u32, total: u32) -> Drawn
        ensures { (result.alt ≡ alt) × (result.total ≡ total) }
    {
        Drawn {
            alt,
            total,
            choose: ln_choose(alt, total),
        }
    }

    fn beta_binomial_ln_pmf(self, alpha: f64, beta: f64) -> f64
        ensures { result ≡ beta_ln_pmf self.alt self.total alpha beta }
    {
        let kf = self.alt as f64;
        let nf = self.total as f64;
        let log_beta_num = ln_gamma(kf + alpha) + ln_gamma(nf - kf + beta)
            - ln_gamma(nf + alpha + beta);
        let log_beta_denom = ln_gamma(alpha) + ln_gamma(beta) - ln_gamma(alpha + beta);
        self.choose + log_beta_num - log_beta_denom
    }

    fn beta_score(self, model: Model, i: usize) -> f64
        requires { i < 3 }
        ensures { result ≡ beta_score model self.alt self.total i }
    {
        let mean = model.means[i];
        let precision = model.precisions[i];
        let likelihood = self.beta_binomial_ln_pmf(mean * precision, (1.0 - mean) * precision);
        with_prior(model, i, likelihood)
    }

    fn bino_score(self, model: Model, i: usize) -> f64
        requires { i < 3 }
        ensures { result ≡ bino_score model self.alt self.total i }
    {
        let likelihood = ln_pmf_by(self.choose, self.alt, self.total, model.means[i]);
        with_prior(model, i, likelihood)
    }
}

// The scores of the states 0 Ref, 1 Het and 2 Hom.
fn each_state<F: Fn(usize) -> f64>(score: F) -> Scores
    requires { (i : _) → i < 3 → F.pre score i }
    ensures homref { F.post score 0 result.homref }
    ensures het { F.post score 1 result.het }
    ensures homalt { F.post score 2 result.homalt }
{
    Scores {
        homref: score(0),
        het: score(1),
        homalt: score(2),
    }
}

pub(crate) fn beta_scores(model: Model, alt: u32, total: u32) -> Scores
    ensures { result ≡ beta_scores model alt total }
{
    let reads = Drawn::new(alt, total);
    each_state(
        |i|
            requires { i < 3 }
        { reads.beta_score(model, i) },
    )
}

pub(crate) fn bino_scores(model: Model, alt: u32, total: u32) -> Scores
    ensures { result ≡ bino_scores model alt total }
{
    let reads = Drawn::new(alt, total);
    each_state(
        |i|
            requires { i < 3 }
        { reads.bino_score(model, i) },
    )
}
