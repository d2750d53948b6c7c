// What the statistics of several crates are made of: no part of the API.
ghost use Rattle.std.specs.Prelude.{◌≡◌, ◌≤◌, ◌^◌};
ghost use Rattle.base.specs.Checks.{side_limit, entry_limit};
ghost use Rattle.topology.specs.Statistics.{bytes_counted, ratio};

// The bytes of a side's three lists.
pub fn metadata_bytes(nrows: usize, words: u64) -> u32
    requires { (nrows ≤ side_limit) × (words ≤ entry_limit) }
    ensures { result ≡ bytes_counted nrows words }
{
    (4 * (nrows + 1) as u64 + 4 * words + 8 * words) as u32
}

// a over b, 0.0 where b is 0; 53 bits are what an f64 holds exactly.
#[tactic(auto, using(crate::proofs::Ratios::ratios))]
pub fn ratio(a: u64, b: u64) -> f64
    requires { (a ≤ 2 ^ 53) × (b ≤ 2 ^ 53) }
    ensures { result ≡ ratio a b }
{
    if b == 0 { 0.0 } else { a as f64 / b as f64 }
}
