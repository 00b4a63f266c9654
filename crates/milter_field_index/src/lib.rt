//! Fields with names, in an order: inserted and deleted anywhere, and found by their number among those of a name, at a
//! cost that grows with the root of how many there are.
#![tactic(auto)]

mod blocks;
mod field_index;
mod occurrence;
mod ranked;
mod row;
mod rows;
mod sequence;
mod symbols;

pub use field_index::FieldIndex;
pub use ranked::Ranked;
pub use sequence::Sequence;
