//! Layer 2, texts: JSON values (RFC 8259) as the texts of OpenID Federation 1.0 carry them.
//!
//! They are read, written in compact form, compared, and lists of them taken as sets. The crates above read headers, claims, key sets,
//! metadata and policies as trees, look members up by name, go through two lists of named items side by side ([`Sides`]), and build the
//! texts that they sign and answer from trees.
#![tactic(auto)]

mod codes;
mod copies;
mod equal;
mod fault;
mod forms;
mod lookup;
mod members;
mod metadata;
mod named;
mod places;
mod read;
mod sets;
mod sides;
mod tree;
mod write;

pub use equal::json_equal;
pub use fault::TreeFault;
pub use forms::is_whole;
pub use lookup::{copied_texts, count_below, find, is_null, object_members, text_at};
pub use members::text_member;
pub use metadata::is_metadata;
pub use named::{HasName, Named};
pub use read::read_tree;
pub use sets::{includes, includes_each, intersect, is_member, union};
pub use sides::{Side, Sides};
pub use tree::{Json, Member};
pub use write::write_tree;
