// The reader and the composers for C and Rust (include/czi.h). A function that can refuse returns the refusal's number, 0 where
// there is none; the listing says it in its text. A single number behind an out-pointer is an answer: it is written always, and is 0
// where a refused call has nothing for it. What is lent as an array or a buffer stays as it was where the call is refused, but for the
// listing's 192 bytes, which are its answer. No function that is exported has a `requires`, and its
// parameters are those of include/czi.h, one by one, which stay as they are.
#![tactic(auto)]

pub mod chosen;
pub mod figures;
pub mod planes;
pub mod quotes;
pub mod records;
pub mod repacks;
pub mod verdict;
pub mod views;
