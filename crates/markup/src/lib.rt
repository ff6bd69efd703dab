// The markup of a sub-block's metadata, read in one pass: stretches of bytes, items, and whether they declare a chunk container.
#![tactic(auto)]

pub mod items;
pub mod section;
pub mod stretches;
