// Lists, ranges and searches that the toolchain's library lacks: definitions in specs/, laws in
// proofs/. Nothing here knows of grid tables.
#![tactic(auto)]
