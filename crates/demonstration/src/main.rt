// Prints small examples of words, matrices, masks, layouts, topologies and regions, as the port answers them, and one list of growths.
// What a call writes is lent to it in arrays: memory is fixed, as a rule of the project.
#![tactic(auto)]

use base::Refusal;
use claims::GrowthRun;
use csr32::Csr32Matrix;
use dof_layout::{FieldAwareDofLayout, FieldBlocks};
use dual_topology::AbtmDualTopology;
use field_region::grow_field_aware_region;
use mask::DofMask;
use multiplicity::{FlatRegions, region_multiplicity, weight};
use region::grow_undirected_region;
use side::AbtmTopology;
use std::{fmt, io};
use word::AbtmTopologyWord;

// Entries (0,1), (1,2), side 3, and the topology of these pairs.
const MATRIX: Csr32Matrix = Csr32Matrix {
    nrows: 3,
    ncols: 3,
    row_ptr: &[0, 1, 2, 2],
    col_idx: &[1, 2],
    values: &[1.0, 1.0],
};

const TOPOLOGY: AbtmDualTopology = AbtmDualTopology {
    rows: AbtmTopology {
        nrows: 3,
        ncols: 3,
        row_word_ptr: &[0, 1, 2, 2],
        word_indices: &[0, 0],
        masks: &[2, 4],
        structural_nnz: 2,
    },
    columns: AbtmTopology {
        nrows: 3,
        ncols: 3,
        row_word_ptr: &[0, 0, 1, 2],
        word_indices: &[0, 0],
        masks: &[1, 2],
        structural_nnz: 2,
    },
};

// Its unknowns in blocks of 2 and 1.
const LAYOUT: FieldAwareDofLayout = FieldAwareDofLayout {
    blocks: FieldBlocks {
        entity_kinds: &[1, 1],
        entity_ids: &[0, 1],
        field_ids: &[0, 0],
        components: &[2, 1],
    },
    offsets: &[0, 2, 3],
};

// One block of 4.
const ONE_BLOCK: FieldAwareDofLayout = FieldAwareDofLayout {
    blocks: FieldBlocks {
        entity_kinds: &[1],
        entity_ids: &[0],
        field_ids: &[0],
        components: &[4],
    },
    offsets: &[0, 4],
};

// ---- printing

// A refusal in words: its number, and of a wrong length its two figures. It stands here, since no other program prints one.
#[derive(Clone, Copy)]
struct Refused(Refusal);

impl fmt::Display for Refused {
    fn fmt<W: fmt::Write>(&self, f: &mut fmt::Formatter<W>) -> fmt::Result {
        let number = self.0.number();
        match self.0 {
            Refusal::WrongLength { expected, actual } => {
                write!(f, "refused {number}, expected {expected}, actual {actual}")
            }
            _ => write!(f, "refused {number}"),
        }
    }
}

// A number, where there is one.
#[derive(Clone, Copy)]
struct Found(Option<usize>);

impl fmt::Display for Found {
    fn fmt<W: fmt::Write>(&self, f: &mut fmt::Formatter<W>) -> fmt::Result {
        match self.0 {
            Some(number) => write!(f, "{number}"),
            None => write!(f, "none"),
        }
    }
}

fn show<T: fmt::Display + Copy>(
    rt: &impl Print,
    what: &str,
    answer: Result<T, Refusal>,
) -> io::Result<()> {
    match answer {
        Ok(value) => println!(rt; "{what}: {value}"),
        Err(refusal) => println!(rt; "{what}: {}", Refused(refusal)),
    }
}

// Of a call that answers acceptance only.
fn show_check(rt: &impl Print, what: &str, answer: Result<(), Refusal>) -> io::Result<()> {
    show(rt, what, answer.map(|()| "accepted"))
}

// Yes as 1, no as 0.
fn show_truth(rt: &impl Print, what: &str, answer: Result<bool, Refusal>) -> io::Result<()> {
    show(rt, what, answer.map(|held| u64::from(held)))
}

// The members of a mask of three nodes.
fn members(rt: &impl Print, what: &str, words: &[u64]) -> io::Result<()> {
    let mask = DofMask { len: 3, words };
    print!(rt; "{what}:")?;
    for node in 0..3 {
        if let Ok(true) = mask.contains(node) {
            print!(rt; " {node}")?;
        }
    }
    println!(rt; "")
}

// ---- the examples

fn words(rt: &impl Print) -> io::Result<()> {
    let word = AbtmTopologyWord::new(0, 22);
    show(rt, "word 22, rank 2", word.rank(2))?;
    show(rt, "word 22, rank 64", word.rank(64))?;
    show(rt, "word 22, rank 65", word.rank(65))?;
    show(rt, "word 22, select 2", Ok(Found(word.select(2))))?;
    show(rt, "word 22, select 3", Ok(Found(word.select(3))))
}

// A matrix of three columns by its other parts, checked.
fn matrix(
    rt: &impl Print,
    what: &str,
    nrows: usize,
    row_ptr: &[u32],
    col_idx: &[u32],
    values: &[f64],
) -> io::Result<()> {
    let matrix = Csr32Matrix {
        nrows,
        ncols: 3,
        row_ptr,
        col_idx,
        values,
    };
    show_check(rt, what, matrix.validate())
}

fn matrices(rt: &impl Print) -> io::Result<()> {
    show_check(rt, "matrix with entries (0,1), (1,2)", MATRIX.validate())?;
    matrix(rt, "nrows 1,048,577", 1048577, &[0], &[], &[])?;
    matrix(rt, "nrows 2, row_ptr 0,1", 2, &[0, 1], &[0], &[1.0])?;
    matrix(rt, "cols 0, no values", 1, &[0, 1], &[0], &[])?;
    matrix(rt, "row_ptr 1,1", 1, &[1, 1], &[0], &[1.0])?;
    matrix(rt, "row_ptr 0,2 with one entry", 1, &[0, 2], &[0], &[1.0])?;
    matrix(
        rt,
        "row_ptr 0,2,1 with one entry",
        2,
        &[0, 2, 1],
        &[0],
        &[1.0],
    )?;
    matrix(rt, "column 3 of 3", 1, &[0, 1], &[3], &[1.0])?;
    matrix(rt, "value infinity", 1, &[0, 1], &[0], &[1.0 / 0.0])
}

fn masks(rt: &impl Print) -> io::Result<()> {
    let mut words = [0u64; 2];
    let made = mask::from_indices(65, &[3, 64], &mut words);
    show_check(rt, "mask of 65 nodes from 3, 64", made)?;
    let two = DofMask {
        len: 65,
        words: &words,
    };
    show(rt, "its count", two.count_ones())?;
    show_truth(rt, "it holds 64", two.contains(64))?;
    show_truth(rt, "it holds 65", two.contains(65))?;
    let first = DofMask {
        len: 3,
        words: &[1],
    };
    let other = DofMask { len: 4, ..first };
    show_truth(rt, "mask 4, side 3", first.intersects(other))?;
    let past = DofMask {
        len: 65,
        words: &[0, 2],
    };
    show_check(rt, "length 65, second word 2", past.check())?;
    let mut three = [0u64; 1];
    show_check(rt, "set bit 3 of 3", mask::set(3, &mut three, 3, true))?;
    show_check(
        rt,
        "output of one word, 65 nodes",
        mask::new(65, &mut three),
    )
}

// The total of the blocks, built.
fn built(rt: &impl Print, what: &str, blocks: FieldBlocks) -> io::Result<()> {
    show(rt, what, dof_layout::new(blocks, &mut [0; 3]))
}

fn layouts(rt: &impl Print) -> io::Result<()> {
    built(rt, "blocks of 2 and 1, their total", LAYOUT.blocks)?;
    if let Ok(Some(place)) = LAYOUT.locate(2) {
        println!(rt;
            "node 2 of them: block {}, component {}",
            place.block_index, place.component
        )?;
    }
    Ok(())
}

fn refused_layouts(rt: &impl Print) -> io::Result<()> {
    let none = FieldBlocks {
        entity_kinds: &[],
        entity_ids: &[],
        field_ids: &[],
        components: &[],
    };
    built(rt, "no blocks", none)?;
    let empty = FieldBlocks {
        components: &[2, 0],
        ..LAYOUT.blocks
    };
    built(rt, "components 2,0", empty)?;
    let twice = FieldBlocks {
        entity_ids: &[0, 0],
        ..LAYOUT.blocks
    };
    built(rt, "same block twice", twice)?;
    let unknown = FieldBlocks {
        entity_kinds: &[7],
        components: &[1],
        ..ONE_BLOCK.blocks
    };
    built(rt, "kind 7", unknown)?;
    show_check(
        rt,
        "total 4, 3 by 3",
        ONE_BLOCK.validate_square_matrix_size(3, 3),
    )?;
    let past = FieldAwareDofLayout {
        blocks: FieldBlocks {
            components: &[1],
            ..ONE_BLOCK.blocks
        },
        offsets: &[1, 1],
    };
    show_check(rt, "offsets 1,1", past.check())
}

// Of the seeds by `hops`. Two functions, for plain growth and for growth by blocks: each makes another call and tells other figures.
fn growth(rt: &impl Print, what: &str, seeds: u64, hops: u64) -> io::Result<()> {
    let seeds = DofMask {
        len: 3,
        words: &[seeds],
    };
    let mut inside = [0u64; 1];
    let mut edge = [0u64; 1];
    let grown = grow_undirected_region(TOPOLOGY, seeds, hops, &mut inside, &mut edge, &mut [0; 1]);
    members(rt, what, &inside)?;
    members(rt, "its frontier", &edge)?;
    show(rt, "hops completed", grown.map(|g| g.hops_completed))
}

fn field_growth(rt: &impl Print, what: &str, seeds: u64, hops: u64) -> io::Result<()> {
    let seeds = DofMask {
        len: 3,
        words: &[seeds],
    };
    let mut inside = [0u64; 1];
    let grown = grow_field_aware_region(
        TOPOLOGY,
        LAYOUT,
        seeds,
        hops,
        &mut inside,
        &mut [0; 1],
        &mut [0; 1],
    );
    members(rt, what, &inside)?;
    show(rt, "its blocks", grown.map(|g| g.region_blocks))
}

fn regions(rt: &impl Print) -> io::Result<()> {
    growth(rt, "region of seed 0, 2 hops", 1, 2)?;
    growth(rt, "region of seed 0, 9 hops", 1, 9)?;
    growth(rt, "region of seed 2, 1 hop", 4, 1)?;
    field_growth(rt, "blocks of 2 and 1, seed 1, 0 hops", 2, 0)?;
    field_growth(rt, "blocks of 2 and 1, seed 1, 1 hop", 2, 1)?;
    let three = FlatRegions {
        node_count: 3,
        region_count: 3,
        words: &[3, 6, 2],
    };
    let stats = region_multiplicity(three, &mut [0; 3]);
    show(
        rt,
        "regions {0,1}, {1,2}, {1}, their total",
        stats.map(|s| s.total_memberships),
    )?;
    show(rt, "their overlap nodes", stats.map(|s| s.overlap_nodes))?;
    show(rt, "their pairs", stats.map(|s| s.pair_overlap_memberships))?;
    show(rt, "weight of the first at node 1", weight(three, 0, 1))
}

// The list of growths by 1, by 5 and by 1 from seed 0, of which the second is lent no words and is refused; then the local system of the region.
fn run(inside: &mut [u64], edge: &mut [u64], values: &mut [f64]) -> Result<GrowthRun, Refusal> {
    claims::run_growths(
        TOPOLOGY,
        MATRIX,
        3,
        &mut [1; 1],
        &[1, 5, 1],
        &[1, 0, 1],
        &[0.5, 0.25],
        inside,
        edge,
        &mut [0; 1],
        &mut [0; 3],
        &mut [0; 4],
        &mut [0; 2],
        &mut [0; 3],
        &mut [0; 2],
        values,
    )
}

fn runs(rt: &impl Print) -> io::Result<()> {
    let mut inside = [0u64; 1];
    let mut edge = [0u64; 1];
    let mut values = [0.0f64; 2];
    if let Ok(
        GrowthRun {
            ran,
            cut: Some(cut),
        },
    ) = run(&mut inside, &mut edge, &mut values)
    {
        show(
            rt,
            "growths by 1, 5 (refused) and 1, accepted",
            Ok(ran.accepted),
        )?;
        show(rt, "their total", Ok(ran.total))?;
        members(rt, "the region then", &inside)?;
        members(rt, "the frontier then", &edge)?;
        show(rt, "gathered values", cut.gathered)?;
        let kept = values[0] == 0.5 && values[1] == 0.25;
        show_truth(rt, "0.5 and 0.25, bit for bit", Ok(kept))?;
    }
    Ok(())
}

fn main(rt: HostRuntime) -> io::Result<()> {
    words(&rt)?;
    matrices(&rt)?;
    masks(&rt)?;
    layouts(&rt)?;
    refused_layouts(&rt)?;
    regions(&rt)?;
    runs(&rt)
}
