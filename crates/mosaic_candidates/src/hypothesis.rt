// A hypothesis of a mosaic call, and what it makes of somatic VAFs (docs/RULES.md, M1, M3, M4). The terms of the likelihood and the gains
// of the prior are made once for a VAF and kept by the search.
ghost use Rattle.std.specs.Prelude.{◌≡◌, ◌≤◌, length};
ghost use Rattle.mosaic_alleles.specs.Alleles.{somatic_in};
ghost use Rattle.mosaic_candidates.specs.Shares.{any_somatic, start_vafs, mass_of, germline_share};
ghost use Rattle.mosaic_candidates.specs.Progress.{likelihood_here, prior_here};

use floats::max_min::max;
use kernels::ln::ln;
use mosaic_alleles::counts::somatic;
use mosaic_alleles::pair::GermlinePair;
use mosaic_shared::shared::Shared;

// The counts of at most eight alleles, the germline alleles, and what all hypotheses of the call share.
#[derive(Clone, Copy)]
pub(crate) struct Hypothesis<'a> {
    pub counts: &'a [u32],
    pub pair: GermlinePair,
    pub shared: &'a Shared,
    ghost few: { length counts.now ≤ 8 },
}

impl<'a> Hypothesis<'a> {
    pub(crate) fn is_somatic(&self, i: usize) -> bool
        ensures { result ≡ somatic_in self.now.counts.now self.now.pair i }
    {
        somatic(self.counts, self.pair, i)
    }

    pub(crate) fn any_somatic(&self) -> bool
        ensures { result ≡ any_somatic self.now.counts.now self.now.pair }
    {
        (0..self.counts.len()).any(|i| self.is_somatic(i))
    }

    // Every somatic allele starts at 0.05.
    pub(crate) fn start_vafs(&self) -> [f64; 8]
        ensures { result ≡ start_vafs self.now.counts.now self.now.pair }
    {
        std::array::from_fn(|i| if self.is_somatic(i) { 0.05 } else { 0.0 })
    }

    // The somatic VAFs, summed.
    fn mass(&self, vafs: &[f64; 8]) -> f64
        ensures { result ≡ mass_of self.now.counts.now self.now.pair vafs.now }
    {
        let mut sum = 0.0;
        for i in 0..self.counts.len() {
            if self.is_somatic(i) {
                sum += vafs[i];
            }
        }
        sum
    }

    // What is left for each germline allele.
    fn germline_share(&self, mass: f64) -> f64
        ensures { result ≡ germline_share self.now.pair mass }
    {
        let rest = max(1.0 - mass, 0.01);
        if self.pair.is_alone() {
            rest
        } else {
            rest / 2.0
        }
    }

    // The log likelihood of VAFs whose terms are given: from the log factorial of the total, each allele's log factorial taken off and then
    // its term added. A germline allele's term is made with the logarithm of the germline share.
    #[tactic(auto, unfolding(crate::specs::Progress::likelihood_by, crate::specs::Progress::term_at))]
    pub(crate) fn likelihood(&self, vafs: &[f64; 8], terms: &[f64; 8]) -> f64
        ensures { result ≡ likelihood_here self.now.counts.now self.now.pair self.now.shared.now vafs.now terms.now }
    {
        let ln_share = ln(self.germline_share(self.mass(vafs)));
        let mut sum = self.shared.of_total;
        for i in 0..self.counts.len() {
            sum -= self.shared.factorials[i];
            if self.counts[i] > 0 {
                sum += if self.is_somatic(i) {
                    terms[i]
                } else {
                    self.counts[i] as f64 * ln_share
                };
            }
        }
        sum
    }

    // The log prior of VAFs whose gains are given: the gains of the somatic alleles, and then what the germline alleles add.
    pub(crate) fn prior(&self, gains: &[f64; 8]) -> f64
        ensures { result ≡ prior_here self.now.counts.now self.now.pair self.now.shared.now gains.now }
    {
        let mut sum = 0.0;
        for i in 0..self.counts.len() {
            if self.is_somatic(i) {
                sum += gains[i];
            }
        }
        sum + if self.pair.is_alone() {
            self.shared.for_one
        } else {
            self.shared.for_two
        }
    }
}
