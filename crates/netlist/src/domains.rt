// The prescribed clock domains of a block. No set outside its limits can be made.
ghost use Rattle.std.specs.Prelude.{◌≡◌, [], ◌∷◌, ◌↔◌, IsTrue, MatchOption};
ghost use Rattle.circuit.specs.Sound.{Rising, SoundDomains};

use crate::limits::{MOST_DOMAINS, MOST_PARTS};
use arrayvec::ArrayVec;

// Domain n has the skew `skews[n]` ÷ `parts` of the period.
#[derive(Drop)]
pub(crate) struct DomainSet {
    parts: u16,
    skews: ArrayVec<u16, MOST_DOMAINS>,
    ghost sound: { SoundDomains parts skews.items },
}

// Whether each skew is above the one before.
fn rises(skews: &[u16]) -> bool
    ensures { IsTrue result ↔ Rising skews.now }
{
    skews.is_sorted_by(|a, b| a < b)
}

// Whether a period of this many parts can have these skews.
fn is_sound(parts: u16, skews: &[u16]) -> bool
    ensures { IsTrue result ↔ SoundDomains parts skews.now }
{
    match skews {
        [0, ..] => {
            parts <= MOST_PARTS
                && skews.len() <= MOST_DOMAINS
                && skews.last().is_some_and(|last| *last < parts)
                && rises(skews)
        }
        _ => false,
    }
}

impl DomainSet {
    ghost use Rattle.netlist.specs.Domains.{skews_of};

    // The set of these skews in a period of this many parts, or none outside the limits.
    pub(crate) fn new(parts: u16, skews: &[u16]) -> Option<DomainSet>
        ensures { MatchOption result (SoundDomains parts skews.now → ⊥) (λ d. SoundDomains parts skews.now × (d.parts ≡ parts) × (skews_of d ≡ skews.now)) }
    {
        if !is_sound(parts, skews) {
            return None;
        }
        // Never more than fit, as was tested.
        let skews = ArrayVec::try_from(skews).ok()?;
        Some(DomainSet { parts, skews })
    }

    // One domain of skew 0 in a period of one part.
    pub(crate) fn single() -> DomainSet
        ensures { (result.parts ≡ 1) × (skews_of result ≡ 0 ∷ []) }
    {
        let mut skews = ArrayVec::new();
        skews.push(0);
        DomainSet { parts: 1, skews }
    }

    // Into how many parts the period is divided.
    pub(crate) fn parts(&self) -> u16
        ensures { result ≡ self.now.parts }
    {
        self.parts
    }

    // The skew of each domain in parts.
    pub(crate) fn skews(&self) -> &[u16]
        ensures { result.now ≡ skews_of self.now }
    {
        self.skews.as_slice()
    }
}
