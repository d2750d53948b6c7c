// The work on regions in a flat list, for callers that have checked: no part of the API.
ghost use Rattle.std.specs.Prelude.{◌≡◌, Err, IfOk, IfErr, ℕ, ◌+◌, ◌*◌, ◌<◌, ◌≤◌, length, get_or};
ghost use Rattle.base.specs.Checks.{side_limit, region_limit};
ghost use Rattle.base.specs.Lists.{list_from};
ghost use Rattle.base.specs.Sets.{every_below, one_if};
ghost use Rattle.mask.specs.Mask.{words_needed, clean};
ghost use Rattle.mask.specs.Views.{nodes};
ghost use Rattle.multiplicity.specs.Multiplicity.{region_at, regions_check, multiplicity_stats, AreRegions};

use crate::{AbtmRegionMultiplicityStats, FlatRegions};
use base::Refusal;
use mask::inner::Mask;
use topology::inner::ratio;
use word::AbtmTopologyWord;
use word::inner::{Bits, bit};

// Regions that were accepted.
#[derive(Clone, Copy)]
pub struct Regions<'a> {
    pub node_count: usize,
    pub region_count: usize,
    pub words: &'a [u64],
    ghost accepted: { AreRegions node_count region_count words.now },
}

impl<'a> FlatRegions<'a> {
    ghost use Rattle.multiplicity.specs.Views.{check_flat, AcceptedFrom};

    pub fn accept(self) -> Result<Regions<'a>, Refusal>
        ensures refused { IfErr result (λ e. check_flat self.entry ≡ Err e) }
        ensures accepted { IfOk result (λ r. (check_flat self.entry ≡ Ok tt) × AcceptedFrom self.entry r) }
    {
        check_regions(self.node_count, self.region_count, self.words)?;
        Ok(Regions {
            node_count: self.node_count,
            region_count: self.region_count,
            words: self.words,
        })
    }
}

// The limits, the length of the flat list, the bits past the nodes. It takes the three one by one: of a list in a struct that is not accepted it is
// not known that its words have 64 bits.
#[tactic(auto, using(base::proofs::Checks::checks), unfolding(crate::specs::Multiplicity::regions_check))]
fn check_regions(node_count: usize, region_count: usize, words: &[u64]) -> Result<(), Refusal>
    ensures value { result ≡ regions_check node_count region_count words.now }
    ensures accepted { IfOk result (λ t. AreRegions node_count region_count words.now) }
{
    if node_count > base::SIDE_LIMIT || region_count > base::REGION_LIMIT {
        return Err(Refusal::OverLimit);
    }
    let need = region_count * mask::inner::words_for(node_count);
    base::must_be(need, words.len())?;
    if !all_clean(node_count, region_count, words) {
        return Err(Refusal::BitPastLength);
    }
    Ok(())
}

// Whether no region has a bit at or past the nodes: its last word alone can.
pub fn all_clean(node_count: usize, region_count: usize, words: &[u64]) -> bool
    requires { (node_count ≤ side_limit) × (region_count ≤ region_limit) × (length words.now ≡ region_count * words_needed node_count) }
    ensures { result ≡ every_below region_count (λ q. clean node_count (region_at node_count words.now q)) }
{
    let spare = node_count % AbtmTopologyWord::BITS;
    if spare == 0 {
        return true;
    }
    let each = mask::inner::words_for(node_count);
    (0..region_count).all(|q| words[q * each + (each - 1)] >> spare == 0)
}

// One more for each member of the mask, a word's set bits from the lowest on: `members` would find its word anew for each member.
fn add_region(region: Mask, counts: &mut [u32])
    requires { (length counts.old ≡ region.len) × ((i : ℕ) → get_or counts.old i 0 < region_limit) }
    ensures { counts.new ≡ list_from (λ i. get_or counts.old i 0 + one_if (nodes region.entry i)) region.entry.len 0 }
{
    for (w, word) in region.words.iter().enumerate() {
        let first = w * AbtmTopologyWord::BITS;
        for bit in Bits::of(*word) {
            let i = first + bit as usize;
            counts[i] += 1;
        }
    }
}

// The statistics of the counts.
#[tactic(auto, using(crate::proofs::Tallies::tally_steps))]
pub fn tally(region_count: usize, counts: &[u32]) -> AbtmRegionMultiplicityStats
    requires { (length counts.now ≤ side_limit) × (region_count ≤ region_limit) × ((i : ℕ) → get_or counts.now i 0 ≤ region_limit) }
    ensures { result ≡ multiplicity_stats (length counts.now) region_count (λ i. get_or counts.now i 0) }
{
    let mut total: u64 = 0;
    let mut covered: u64 = 0;
    let mut overlap: u64 = 0;
    let mut most: u32 = 0;
    let mut pairs: u64 = 0;
    for count in counts {
        most = most.max(*count);
        let m = *count as u64;
        total += m;
        if m > 0 {
            covered += 1;
            pairs += m * (m - 1) / 2;
        }
        if m > 1 {
            overlap += 1;
        }
    }
    AbtmRegionMultiplicityStats {
        region_count: region_count as u64,
        node_count: counts.len() as u64,
        total_memberships: total,
        covered_nodes: covered,
        overlap_nodes: overlap,
        max_multiplicity: most,
        pair_overlap_memberships: pairs,
        extra_memberships: total - covered,
        average_multiplicity_on_covered: ratio(total, covered),
        overlap_fraction_on_covered: ratio(overlap, covered),
    }
}

impl<'a> Regions<'a> {
    ghost use Rattle.multiplicity.specs.Views.{held, multiplicity_at};

    // Region q, from 0.
    fn region(self, q: usize) -> Mask<'a>
        requires { q < self.region_count }
        ensures long { result.len ≡ self.entry.node_count }
        ensures words { result.words.now ≡ region_at self.entry.node_count self.entry.words.now q }
    {
        let each = mask::inner::words_for(self.node_count);
        Mask {
            len: self.node_count,
            words: &self.words[q * each..(q + 1) * each],
        }
    }

    // Each node's multiplicity, on a list of as many counts as nodes. Not by `chunks`: of no nodes a region has no words, and there are no chunks of
    // none.
    pub fn count(self, counts: &mut [u32])
        requires { length counts.old ≡ self.node_count }
        ensures { counts.new ≡ list_from (multiplicity_at self.entry) self.entry.node_count 0 }
    {
        counts.fill(0);
        for q in 0..self.region_count {
            add_region(self.region(q), counts);
        }
    }

    // Whether a region holds a node: one word is read, and no mask cut out.
    pub fn holds(self, region: usize, node: usize) -> bool
        requires { (region < self.region_count) × (node < self.node_count) }
        ensures { result ≡ held self.entry region node }
    {
        let first = region * mask::inner::words_for(self.node_count);
        let word = self.words[first + node / AbtmTopologyWord::BITS];
        bit(word, node % AbtmTopologyWord::BITS)
    }

    // How many regions hold a node. By a sum: `filter` with `count` becomes a branch, and as regions that hold a node follow no order, it took a third
    // more time.
    pub fn multiplicity(self, node: usize) -> u64
        requires { node < self.node_count }
        ensures { result ≡ multiplicity_at self.entry node }
    {
        let mut m: u64 = 0;
        for q in 0..self.region_count {
            m += u64::from(self.holds(q, node));
        }
        m
    }
}
