// One list over memory that the caller lends.
//
// [`Store`] is made over a `&mut [T]` and keeps its entries at the front of it, in the order in which they were
// pushed. It allocates nothing, so it can be full: `push` then gives the value back. What lies behind the
// entries in use is free memory, and nothing is said of it.
#![tactic(auto)]

pub mod list;

pub use list::Store;
