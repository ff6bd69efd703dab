// The records of a whole file at once: every tile's and every dimension's, as numbers in lent arrays. The file is judged once for all.
#![tactic(auto)]

pub mod dimensions;
pub mod numbers;
pub mod rows;
pub mod tiles;
