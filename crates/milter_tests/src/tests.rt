//! Tests of the libraries by values that were written out by hand. What programs can show stands in the tables of
//! cases/tables/ instead.

mod events;
mod faults;
mod lists;
mod packets;
mod range_sets;
mod splitter;
mod text_sets;
mod words;
