// The order of periods, by length.
ghost use Rattle.std.specs.Prelude.{Some};
ghost use Rattle.period.specs.Periods.{fraction, comparison};
ghost use Rattle.std.specs.Cmp.{partial_order_from_agreeing_total};
ghost use Rattle.period.specs.Ordered.{ordered, agreed, level};

use crate::period::Period;
use std::cmp::Ordering;

impl PartialOrd for Period {
    ghost partial_cmp = { λ p q. Some (comparison (fraction p) (fraction q)) };

    ghost laws = { partial_order_from_agreeing_total (λ p q. comparison (fraction p) (fraction q)) (ordered (λ p. p.lowest_terms)) agreed (level (λ p. p.lowest_terms)) };

    fn partial_cmp(&self, other: &Period) -> Option<Ordering> {
        Some(self.cmp(other))
    }
}

impl Ord for Period {
    ghost cmp = { λ p q. comparison (fraction p) (fraction q) };

    ghost total = { ordered (λ p. p.lowest_terms) };

    ghost matches_partial_cmp = { agreed };

    ghost matches_eq = { level (λ p. p.lowest_terms) };

    // Exact: a product of 64 and 16 bits fits 128.
    fn cmp(&self, other: &Period) -> Ordering {
        let here = self.numerator as u128 * other.denominator as u128;
        let there = other.numerator as u128 * self.denominator as u128;
        here.cmp(&there)
    }
}
