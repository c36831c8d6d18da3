//! Two small rewritings, each typed by a front door of the combinators: one that writes vectors as two integers, and one that
//! puts the body of each loop into a block.
#![tactic(auto)]
