// A kind of book in one file, as a library keeper adds one.
//
// 1. A struct whose ghost fields say its limits: none outside them can be made.
// 2. What it means, in numbers and lists: `chain` of specs/Chain.antt.
// 3. An impl of `Book` that names the meaning and answers by it.
// 4. The law `sound` in that impl: the limits and both laws of the meaning, proved by `chain_sound` of specs/Links.antt.
//
// The engine and the bound book then take the new kind as they are.
ghost use Rattle.std.specs.Prelude.{◌≡◌, ◌-◌, ◌<◌, ◌≤◌, MatchOption};
ghost use Rattle.checks.specs.Limits.{most_flops, most_domains};
ghost use Rattle.period.specs.Periods.{fraction};
ghost use Rattle.booktrials.specs.Chain.{chain, Outside};
ghost use Rattle.booktrials.specs.Links.{chain_sound};

use books::limits::{MOST_DOMAINS, MOST_FLOPS};
use books::{Book, Ends};
use period::Period;

// One check from each flip-flop to the next, with the same need in all domains.
#[derive(Clone, Copy)]
pub struct ConstantBook {
    flops: usize,
    domains: usize,
    need: Period,
    ghost few_flops: { flops ≤ most_flops },
    ghost some_domain: { 0 < domains },
    ghost few_domains: { domains ≤ most_domains },
}

impl ConstantBook {
    // The book, or none outside the limits of every book.
    pub fn new(flops: usize, domains: usize, need: Period) -> Option<ConstantBook>
        ensures { MatchOption result (Outside flops domains) (λ b. (b.flops ≡ flops) × (b.domains ≡ domains) × (b.need ≡ need)) }
    {
        if flops > MOST_FLOPS || domains == 0 || domains > MOST_DOMAINS {
            return None;
        }
        Some(ConstantBook {
            flops,
            domains,
            need,
        })
    }

    // The number of checks.
    fn links(&self) -> usize
        ensures { result ≡ self.now.flops - 1 }
    {
        self.flops.saturating_sub(1)
    }
}

impl Book for ConstantBook {
    ghost meaning = { λ b. chain b.flops b.domains (fraction b.need) };

    ghost sound = { λ b. chain_sound b.flops b.domains (fraction b.need) b.few_flops b.some_domain b.few_domains (record { few_units = b.need.few_units; parted = b.need.parted; coarse = b.need.coarse }) };

    fn flops(&self) -> usize {
        self.flops
    }

    fn domains(&self) -> usize {
        self.domains
    }

    fn checks(&self) -> usize {
        self.links()
    }

    fn floor(&self) -> Period {
        Period::zero()
    }

    // By `if`, here and below: tried with `then`, and the proof did not close.
    fn ends(&self, place: usize) -> Option<Ends> {
        if place < self.links() {
            Some(Ends {
                start: place,
                end: place + 1,
            })
        } else {
            None
        }
    }

    fn need(&self, place: usize, start_domain: usize, end_domain: usize) -> Option<Period> {
        if start_domain >= self.domains || end_domain >= self.domains {
            return None;
        }
        if place < self.links() {
            Some(self.need)
        } else {
            None
        }
    }
}
