// The work of a gather, for callers that have checked: no part of the API.
ghost use Rattle.std.specs.Prelude.{◌≡◌, true, ◌-◌, ◌<◌, ◌≤◌, length, get_or};
ghost use Rattle.std.proofs.Math.Seq.{slice};
ghost use Rattle.base.specs.Lists.{every, rising, below, over};
ghost use Rattle.gather.specs.Gather.{is_one_each, sum_of, values_of, summed, gathered};

// A plan that was accepted, with the values that it gathers.
#[derive(Clone, Copy)]
pub struct Plan<'a, 'v> {
    pub ptr: &'a [u32],
    pub sources: &'a [u32],
    pub values: &'v [f64],
    ghost some: { 0 < length ptr.now },
    ghost starts: { get_or ptr.now 0 0 ≡ 0 },
    ghost rises: { rising ptr.now ≡ true },
    ghost ends: { get_or ptr.now (length ptr.now - 1) 0 ≡ length sources.now },
    ghost inside: { every (below (length values.now)) sources.now ≡ true },
}

impl Plan<'_, '_> {
    // Whether every pair has one source, from pointers that never fall. All steps are looked at, and none waits for the one before it. `windows(2)`
    // is no plainer, because the two pointers of a window are read by number too.
    fn one_each(self) -> bool
        ensures { result ≡ is_one_each self.entry.ptr.now }
    {
        let mut other: u32 = 0;
        for i in 1..self.ptr.len() {
            other |= (self.ptr[i] - self.ptr[i - 1]) ^ 1;
        }
        other == 0
    }

    // The sum from 0.0 of one pair's entries: a loop, since the library's sum of floats begins with -0.0. A `fold` is no plainer, because its step is
    // the loop's and its start would stand beside it.
    fn sum_pair(self, from: usize, to: usize) -> f64
        requires { (from ≤ to) × (to ≤ length self.sources.now) }
        ensures { result ≡ sum_of self.entry.values.now (slice from to self.entry.sources.now) }
    {
        let mut sum: f64 = 0.0;
        for s in &self.sources[from..to] {
            sum += self.values[*s as usize];
        }
        sum
    }

    // By number, here and below: what a `zip` with `out.iter_mut()` leaves in `out` has no name that an answer may cite. Pair i is what lies between
    // pointers i and i + 1, and goes to place i.
    fn sum_pairs(self, out: &mut [f64])
        requires { length self.ptr.now - 1 ≤ length out.old }
        ensures { out.new ≡ over (summed self.entry.ptr.now self.entry.sources.now self.entry.values.now) out.old }
    {
        for i in 0..self.ptr.len() - 1 {
            out[i] = self.sum_pair(self.ptr[i] as usize, self.ptr[i + 1] as usize);
        }
    }

    // Where every pair has one source: source i goes to place i.
    fn copy_sources(self, out: &mut [f64])
        requires { length self.sources.now ≤ length out.old }
        ensures { out.new ≡ over (values_of self.entry.values.now self.entry.sources.now) out.old }
    {
        for (i, s) in self.sources.iter().enumerate() {
            out[i] = self.values[*s as usize];
        }
    }

    pub fn gather(self, out: &mut [f64])
        requires { length self.ptr.now - 1 ≤ length out.old }
        ensures { out.new ≡ over (gathered self.entry.ptr.now self.entry.sources.now self.entry.values.now) out.old }
    {
        if self.one_each() {
            self.copy_sources(out);
            return;
        }
        self.sum_pairs(out);
    }
}
