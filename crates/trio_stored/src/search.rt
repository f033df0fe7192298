// A search over stored scores, and the children of one father and one mother, from the last one down (docs/RULES.md, T4, T5, T13). Of
// equal scores the later is better (T7), so on the way down a score that is not above the second best changes nothing.
ghost use Rattle.std.specs.Prelude.{length, ◌≡◌, ◌+◌, ◌*◌, ◌≤◌, ◌<◌, ◌^◌};
ghost use Rattle.trio_entries.specs.Held.{held_of, held_list};
ghost use Rattle.trio_family.specs.Genotypes.{genotype_count};
ghost use Rattle.trio_stored.specs.Rows.{row_fallen, listed};
ghost use Rattle.trio_stored.specs.BestOf.{best_of_row, best_of_all};
ghost use Rattle.trio_stored.specs.Terms.{PairIn};
ghost use Rattle.trio_stored.specs.Walk.{fallen, next_of, four_of, block_score, even_score, family_score};
ghost use Rattle.trio_stored.specs.Walk.{to_pass, AtMost, HeldPast};

use crate::terms::{Places, UNLIKE, likely, places_of, share, terms_of};
use trio_entries::entry::Entry;
use trio_entries::held::{Held, offer};
use trio_family::genotypes::{genotype_at, genotype_count};
use trio_family::pair::Pair;
use trio_mendel::mendel::distinct_pairs;
use trio_samples::scores::Scores;

// The score that the next one must pass: the second best, or NaN, which every score passes.
#[tactic(auto, unfolding(crate::specs::Walk::to_pass))]
fn to_pass(h: Held) -> f64
    ensures { result ≡ to_pass h }
{
    if h.count == 2 {
        return h.second.score;
    }
    0.0 / 0.0
}

// A number that none of the first g scores passes: the largest of them.
fn largest(scores: &[f64], g: u64) -> f64
    requires { g ≤ length scores.now }
    ensures { AtMost scores.now g result }
{
    let mut x = -1.0 / 0.0;
    for i in 0..g as usize {
        let y = scores[i];
        if x < y {
            x = y;
        }
    }
    x
}

// The scores of the three animals under the g genotypes of n clusters, the rule, and the largest score of a child.
#[derive(Clone, Copy)]
pub(crate) struct Search<'a> {
    n: u64,
    rule: u64,
    g: u64,
    child: &'a [f64; 36],
    father: &'a [f64; 36],
    mother: &'a [f64; 36],
    top: f64,
    ghost sized: { (1 ≤ n) × (n ≤ 8) × (g ≡ genotype_count n) × (g ≤ 36) },
    ghost highest: { AtMost child.now g top },
}

// Stays: that what is held lies past a position is asked of each step. The position falls with every step, so a type with the fact would
// have to carry it, and each step to make the type anew.
impl<'a> Search<'a> {
    // The search over the scores of n clusters.
    pub(crate) fn new(n: u64, rule: u64, scores: &'a Scores) -> Search<'a>
        requires { (1 ≤ n) × (n ≤ 8) }
        ensures same { (result.n ≡ n) × (result.rule ≡ rule) }
        ensures lent { listed result.child.now result.father.now result.mother.now ≡ scores.now }
    {
        let g = genotype_count(n as u32);
        Search {
            n,
            rule,
            g,
            child: &scores.child,
            father: &scores.father,
            mother: &scores.mother,
            top: largest(&scores.child, g),
        }
    }

    // What is held once the children have been offered, whose positions start at `at`.
    fn down(&self, terms: &[f64; 36], base: f64, at: u64, held: Held) -> Held
        requires { (at + self.now.g < 2 ^ 64) × HeldPast (at + self.now.g) held }
        ensures { result ≡ held_of (fallen (block_score self.now.child.now terms.now base at) at self.now.g (held_list held)) }
    {
        let mut h = held;
        let mut least = to_pass(h);
        for p in (0..self.g).rev() {
            let score = (base + self.child[p as usize]) + terms[p as usize];
            if score <= least {} else {
                h = offer(
                    h,
                    Entry {
                        position: at + p,
                        score,
                    },
                );
                least = to_pass(h);
            }
        }
        h
    }

    // What is held once the child at place k has been offered, if k lies before the place offered last.
    fn next(&self, base: f64, term: f64, at: u64, k: u64, last: u64, held: Held) -> Held
        requires { (k ≤ last) × (last ≤ 36) × (at + last < 2 ^ 64) × HeldPast (at + last) held }
        ensures { result ≡ held_of (next_of (even_score self.now.child.now term base at) at k last (held_list held)) }
    {
        if k < last {
            let score = (base + self.child[k as usize]) + term;
            if score <= to_pass(held) {
                return held;
            }
            return offer(
                held,
                Entry {
                    position: at + k,
                    score,
                },
            );
        }
        held
    }

    // What is held once the children at four places have been offered, the last one first, of those at one place one. The first and the
    // last place have one term, those between another.
    fn four(&self, base: f64, outer: f64, inner: f64, at: u64, k: Places, held: Held) -> Held
        requires first_le_second { (k.first ≤ k.second) × (k.second ≤ k.third) × (k.third ≤ k.fourth) × (k.fourth ≤ self.now.g) }
        requires g_bound { (at + self.now.g < 2 ^ 64) × HeldPast (at + self.now.g) held }
        ensures { result ≡ held_of (four_of (even_score self.now.child.now outer base at) (even_score self.now.child.now inner base at) at
            self.now.g k (held_list held)) }
    {
        let a = self.next(base, outer, at, k.fourth, self.g, held);
        let b = self.next(base, inner, at, k.third, k.fourth, a);
        let c = self.next(base, inner, at, k.second, k.third, b);
        self.next(base, outer, at, k.first, k.second, c)
    }

    // What is held once the children of f and m have been offered, whose scores sum up to `base`. Where no child can pass the second best,
    // none is, and that is asked with the inner term, which is never below the outer; where no child that these parents cannot have can,
    // those that they can have are.
    fn family(&self, f: Pair, m: Pair, base: f64, at: u64, held: Held) -> Held
        requires n_bound { PairIn self.now.n f × PairIn self.now.n m }
        requires g_bound { (at + self.now.g < 2 ^ 64) × HeldPast (at + self.now.g) held }
        ensures { result ≡ held_of (fallen (family_score self.now.n self.now.rule f m self.now.child.now base at) at self.now.g
            (held_list held)) }
    {
        let d = distinct_pairs(f, m);
        let inner = likely(share(self.rule, d, 2));
        let least = to_pass(held);
        if (base + self.top) + inner <= least {
            return held;
        }
        let outer = likely(share(self.rule, d, 4));
        let k = places_of(self.n, f, m);
        if (base + self.top) + UNLIKE <= least {
            return self.four(base, outer, inner, at, k, held);
        }
        let terms = terms_of(k, outer, inner);
        self.down(&terms, base, at, held)
    }

    // What is held once the row of father f has been offered. A mother with whom no child could pass the second best is left out: no term
    // is above 0.
    fn offer_row(&self, f: u64, held: Held) -> Held
        requires { (f < self.now.g) × HeldPast (f * (self.now.g * self.now.g) + self.now.g * self.now.g) held }
        ensures { result ≡ held_of (row_fallen self.now.n self.now.rule self.now.g f self.now.child.now self.now.father.now
            self.now.mother.now (held_list held)) }
    {
        let own = genotype_at(self.n, f);
        let mut h = held;
        for m in (0..self.g).rev() {
            let base = self.father[f as usize] + self.mother[m as usize];
            if (base + self.top) + 0.0 <= to_pass(h) {} else {
                let other = genotype_at(self.n, m);
                let at = f * (self.g * self.g) + m * self.g;
                h = self.family(own, other, base, at, h);
            }
        }
        h
    }

    // The best two of row r; none where there is no such row.
    pub(crate) fn row(&self, r: u64) -> Held
        ensures { result ≡ best_of_row self.now.n self.now.rule r (listed self.now.child.now self.now.father.now self.now.mother.now) }
    {
        if self.g <= r {
            return Held::nothing();
        }
        self.offer_row(r, Held::nothing())
    }

    // The best two of all rows, which are offered from the last one down.
    pub(crate) fn all(&self) -> Held
        ensures { result ≡ best_of_all self.now.n self.now.rule (listed self.now.child.now self.now.father.now self.now.mother.now) }
    {
        let mut h = Held::nothing();
        for f in (0..self.g).rev() {
            h = self.offer_row(f, h);
        }
        h
    }
}
