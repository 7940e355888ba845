//! Layer 6, the service: the cache of statements and the book of trust anchors' keys, which threads share.
//!
//! A resolver keeps the entity statements that it fetched (OpenID Federation 1.0 section 3) and knows the keys of its trust anchors.
//! Threads share both as [`Commons`]: eight parts of the cache and one book, each with one list of all calls on it, in which each call
//! was answered as a plain list answers it there. Each caller has a [`FedPass`], which says what it has seen of the nine and which calls
//! were its own.
//!
//! # What is promised
//!
//! - A Hit tells the text of the last Put of its URL, before its end, and keys under which it verifies, by the type of [`Proven`].
//! - A Read tells the keys of the last Rotate of its anchor, or those that the book was opened with, and the book's epoch, which never
//!   falls.
//! - A part keeps at most 32 entries of at most four keys.
//! - What a pass has seen of a part or of the book ends with its own call right after that call. [`turn_log::Worn`] is answered exactly
//!   where the part or the book has counted 2^62 calls.
//!
//! # What isn't promised
//!
//! - That a call gets its turn, an order of callers who never told each other anything, or an order between two parts.
//! - That an authority still stands by a text that the cache tells.
#![tactic(auto)]

mod address;
mod book;
mod calls;
mod commons;
mod copies;
mod entry;
pub mod laws;
mod part;
mod plain;

pub use book::AnchorBook;
pub use calls::{AnchorKeys, BookCall, BookReply, Proven, ShelfCall, ShelfReply};
pub use commons::{Commons, FedPass, SharedCommons};
pub use part::ShelfPart;
