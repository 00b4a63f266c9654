//! The C library: each exported function of `deiruska.h`. An export takes handles, bytes and numbers, and answers a
//! number; each of its contracts holds for every state of its handles, so none has a `requires`. An export that borrows
//! bytes to its caller says what these are.
#![tactic(auto)]

mod answer;
mod decoded;
mod filter;
mod library;
mod macros;
mod message;
mod mta;
mod mta_calls;
mod packet;
mod rules;
mod shown;
mod stream;
mod trace;
mod view;
