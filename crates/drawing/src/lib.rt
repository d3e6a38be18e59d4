// What drawing a table gives: grid rules, widths and heights, the plain drawing, redraw with its
// refusals 8 to 11, as definitions in specs/; theorems about them in proofs/.
#![tactic(auto)]
