// Growth in definitions, without code: which blocks are linked, how far a block is from the seeds, and which nodes are within so many
// links. specs/ holds the definitions, a walk of links and the same computed; proofs/ that the two agree, and what follows.
#![tactic(auto)]
