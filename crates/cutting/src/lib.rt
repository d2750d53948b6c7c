// The region of a peak cut out of a built topology of exactly the matrix's pairs: grown by whole blocks, then its pattern and its numeric plan, each
// list zero past its own part. It holds no public call.
#![tactic(auto)]

use field_region::FieldAwareRegionStats;
use numeric_plan::AbtmLocalNumericPlanStats;
use pattern::AbtmLocalSubmatrixPatternStats;

pub mod inner;

// The statistics of a region's pattern and plan.
#[derive(Clone, Copy)]
pub struct LocalStats {
    pub pattern: AbtmLocalSubmatrixPatternStats,
    pub numeric_plan: AbtmLocalNumericPlanStats,
}

// The statistics of a growth, and of the pattern and plan of its region.
#[derive(Clone, Copy)]
pub struct RegionCut {
    pub growth: FieldAwareRegionStats,
    pub local: LocalStats,
}
