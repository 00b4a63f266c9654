//! What is looked for in a message, texts and the entries of lists: how they are compared with values, and what of a
//! message was searched for them already, so that a search that is made again with each recipient, each header field
//! and each chunk of a body goes over each byte once.
#![tactic(auto)]

mod body;
mod body_search;
mod header_key;
mod headers;
mod needle;
mod path_key;
mod pattern;
mod recipients;
mod search;
mod text_case;

pub use body::Body;
pub use headers::Headers;
pub use milter_text::TextCase;
pub use needle::Needle;
pub use path_key::{PathPart, finds_in_path};
pub use pattern::{Pattern, Test, texts_in_bytes};
pub use recipients::Recipients;
