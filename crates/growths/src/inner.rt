// Lists of growths given by arrays, for callers that have checked: no part of the API.
ghost use Rattle.std.specs.Prelude.{◌≡◌, ℕ, ◌<◌, min, length};
ghost use Rattle.base.specs.Checks.{leaves};
ghost use Rattle.mask.specs.Mask.{words_needed, length_check};
ghost use Rattle.dof_layout.specs.Views.{check_square};
ghost use Rattle.dual_topology.specs.Views.{check_topology};
ghost use Rattle.graph.specs.Network.{region_words};
ghost use Rattle.growth.specs.Lent.{region_left, frontier_left, scratch_left};
ghost use Rattle.region.specs.Views.{plain};
ghost use Rattle.field_region.specs.Views.{blocked};
ghost use Rattle.growths.specs.Runs.{largest, Ground};
ghost use Rattle.growths.specs.Solid.{Solid};
ghost use Rattle.growths.specs.Views.{plain_growths, field_growths};
ghost use Rattle.growths.specs.Counts.{counted_by, ran_of, seeds_after, region_once_grown, frontier_once_grown, scratch_once_grown};

use crate::Ran;
use base::Refusal;
use dof_layout::FieldAwareDofLayout;
use dual_topology::AbtmDualTopology;
use mask::DofMask;

// What the growths of a list are asked for: growth i goes by hops[i] and is lent the first rooms[i] words of the three lists, as far as they reach.
#[derive(Clone, Copy)]
pub struct Asked<'a> {
    pub hops: &'a [u64],
    pub rooms: &'a [u64],
    ghost one_each: { length rooms.now ≡ length hops.now },
}

// One accepted growth more. A total past 64 bits stays at the largest.
fn counted(ran: Ran, hops: u64) -> Ran
    requires { ran.accepted < largest }
    ensures { result ≡ counted_by ran hops }
{
    Ran {
        accepted: ran.accepted + 1,
        total: ran.total.saturating_add(hops),
        last: hops,
    }
}

// What grows once: on which network, and by which checks. The three lists that a growth writes are handed in one by one, each with its equation.
trait Grower {
    ghost shared: { Self → Ground };

    // One growth: the first refusal of its checks, if there is one.
    fn once(
        &self,
        seeds: &[u64],
        hops: u64,
        region: &mut [u64],
        frontier: &mut [u64],
        scratch: &mut [u64],
    ) -> Result<(), Refusal>
        ensures value { result ≡ (shared self.now).check seeds.now region.old frontier.old scratch.old }
        ensures own { ((shared self.now).check seeds.now region.old frontier.old scratch.old) ≡ Ok tt → length seeds.now ≡ words_needed (shared self.now).network.nodes }
        ensures inside { region.new ≡ region_left ((shared self.now).check seeds.now region.old frontier.old scratch.old) (shared self.now).network seeds.now hops region.old }
        ensures edge { frontier.new ≡ frontier_left ((shared self.now).check seeds.now region.old frontier.old scratch.old) (shared self.now).network seeds.now hops frontier.old }
        ensures spent { scratch.new ≡ scratch_left ((shared self.now).check seeds.now region.old frontier.old scratch.old) (shared self.now).network.nodes scratch.old };
}

#[derive(Clone, Copy)]
struct Plain<'a> {
    topology: AbtmDualTopology<'a>,
    len: usize,
}

impl<'a> Grower for Plain<'a> {
    ghost shared = { λ g. plain_growths g.topology g.len };

    fn once(
        &self,
        seeds: &[u64],
        hops: u64,
        region: &mut [u64],
        frontier: &mut [u64],
        scratch: &mut [u64],
    ) -> Result<(), Refusal> {
        let mask = DofMask {
            len: self.len,
            words: seeds,
        };
        region::grow_undirected_region(self.topology, mask, hops, region, frontier, scratch)?;
        Ok(())
    }
}

#[derive(Clone, Copy)]
struct Fields<'a> {
    topology: AbtmDualTopology<'a>,
    layout: FieldAwareDofLayout<'a>,
    len: usize,
}

impl<'a> Grower for Fields<'a> {
    ghost shared = { λ g. field_growths g.topology g.layout g.len };

    fn once(
        &self,
        seeds: &[u64],
        hops: u64,
        region: &mut [u64],
        frontier: &mut [u64],
        scratch: &mut [u64],
    ) -> Result<(), Refusal> {
        let mask = DofMask {
            len: self.len,
            words: seeds,
        };
        field_region::grow_field_aware_region(
            self.topology,
            self.layout,
            mask,
            hops,
            region,
            frontier,
            scratch,
        )?;
        Ok(())
    }
}

// One growth, and where it is accepted the seeds are renewed: they are then its region.
fn grow_one<G: Grower>(
    g: &G,
    seeds: &mut [u64],
    hops: u64,
    region: &mut [u64],
    frontier: &mut [u64],
    scratch: &mut [u64],
    ran: Ran,
) -> Ran
    requires { ran.accepted < largest }
    ensures value { result ≡ leaves ((G.shared g.now).check seeds.old region.old frontier.old scratch.old) (counted_by ran hops) ran }
    ensures renewed { seeds.new ≡ leaves ((G.shared g.now).check seeds.old region.old frontier.old scratch.old) (region_words (G.shared g.now).network seeds.old hops) seeds.old }
    ensures inside { region.new ≡ region_left ((G.shared g.now).check seeds.old region.old frontier.old scratch.old) (G.shared g.now).network seeds.old hops region.old }
    ensures edge { frontier.new ≡ frontier_left ((G.shared g.now).check seeds.old region.old frontier.old scratch.old) (G.shared g.now).network seeds.old hops frontier.old }
    ensures spent { scratch.new ≡ scratch_left ((G.shared g.now).check seeds.old region.old frontier.old scratch.old) (G.shared g.now).network.nodes scratch.old }
{
    match g.once(seeds, hops, region, frontier, scratch) {
        Ok(()) => {
            let need = seeds.len();
            seeds.copy_from_slice(&region[..need]);
            counted(ran, hops)
        }
        Err(_) => ran,
    }
}

// A growth that is refused changes nothing. What the list comes to is one growth by the total from the first seeds. By index: what holds after i
// growths is said of the first i counts and rooms, and a numbered zip would count for the proof alone.
fn grow_all<G: Grower>(
    g: &G,
    seeds: &mut [u64],
    asked: Asked,
    region: &mut [u64],
    frontier: &mut [u64],
    scratch: &mut [u64],
) -> Ran
    requires { (side : ℕ) × (len : ℕ) × Solid side len (G.shared g.now) × (length_check side len seeds.old ≡ Ok tt) }
    ensures value { result ≡ ran_of (words_needed (G.shared g.now).network.nodes) asked.entry.hops.now asked.entry.rooms.now (min (length region.old) (min (length frontier.old) (length scratch.old))) (length asked.entry.hops.now) }
    ensures renewed { seeds.new ≡ seeds_after (G.shared g.now).network result seeds.old }
    ensures inside { region.new ≡ region_once_grown (G.shared g.now).network result seeds.old region.old }
    ensures edge { frontier.new ≡ frontier_once_grown (G.shared g.now).network result seeds.old frontier.old }
    ensures spent { scratch.new ≡ scratch_once_grown (G.shared g.now).network result scratch.old }
{
    let shortest = region.len().min(frontier.len().min(scratch.len()));
    let mut ran = Ran::default();
    for i in 0..asked.hops.len() {
        let part = shortest.min(asked.rooms[i] as usize);
        ran = grow_one(
            g,
            seeds,
            asked.hops[i],
            &mut region[..part],
            &mut frontier[..part],
            &mut scratch[..part],
            ran,
        );
    }
    ran
}

// A list of plain growths.
pub fn grow_list(
    topology: AbtmDualTopology,
    len: usize,
    seeds: &mut [u64],
    asked: Asked,
    region: &mut [u64],
    frontier: &mut [u64],
    scratch: &mut [u64],
) -> Ran
    requires { (check_topology topology ≡ Ok tt) × (topology.rows.nrows ≡ topology.rows.ncols) × (length_check topology.rows.nrows len seeds.old ≡ Ok tt) }
    ensures value { result ≡ ran_of (words_needed topology.entry.rows.nrows) asked.entry.hops.now asked.entry.rooms.now (min (length region.old) (min (length frontier.old) (length scratch.old))) (length asked.entry.hops.now) }
    ensures renewed { seeds.new ≡ seeds_after (plain topology.entry) result seeds.old }
    ensures inside { region.new ≡ region_once_grown (plain topology.entry) result seeds.old region.old }
    ensures edge { frontier.new ≡ frontier_once_grown (plain topology.entry) result seeds.old frontier.old }
    ensures spent { scratch.new ≡ scratch_once_grown (plain topology.entry) result scratch.old }
{
    let g = Plain { topology, len };
    grow_all(&g, seeds, asked, region, frontier, scratch)
}

// A list of growths by whole blocks, under a layout.
pub fn grow_field_list<'a>(
    topology: AbtmDualTopology<'a>,
    layout: FieldAwareDofLayout<'a>,
    len: usize,
    seeds: &mut [u64],
    asked: Asked,
    region: &mut [u64],
    frontier: &mut [u64],
    scratch: &mut [u64],
) -> Ran
    requires { (check_topology topology ≡ Ok tt) × (check_square layout topology.rows.nrows topology.rows.ncols ≡ Ok tt) × (length_check topology.rows.nrows len seeds.old ≡ Ok tt) }
    ensures value { result ≡ ran_of (words_needed topology.entry.rows.nrows) asked.entry.hops.now asked.entry.rooms.now (min (length region.old) (min (length frontier.old) (length scratch.old))) (length asked.entry.hops.now) }
    ensures renewed { seeds.new ≡ seeds_after (blocked topology.entry layout.entry) result seeds.old }
    ensures inside { region.new ≡ region_once_grown (blocked topology.entry layout.entry) result seeds.old region.old }
    ensures edge { frontier.new ≡ frontier_once_grown (blocked topology.entry layout.entry) result seeds.old frontier.old }
    ensures spent { scratch.new ≡ scratch_once_grown (blocked topology.entry layout.entry) result scratch.old }
{
    let g = Fields {
        topology,
        layout,
        len,
    };
    grow_all(&g, seeds, asked, region, frontier, scratch)
}
