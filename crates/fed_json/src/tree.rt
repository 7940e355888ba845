// The values of JSON.

use fed_base::{Seq, Text};

/// A JSON value (RFC 8259 section 3).
#[cycle(json)]
#[derive(Drop)]
pub enum Json {
    Null,
    Bool(bool),
    /// A whole number from -2^63 to 2^64 - 1, written without fraction and exponent; `-0` is none.
    Int(i128),
    /// Any other number. Its value isn't kept.
    Odd,
    /// The bytes of a string, without its quotation marks and escapes.
    Text(Text),
    /// The items of an array, in their order.
    List(Seq<Json>),
    /// The members of an object. Those of a tree that was read stand in strictly rising byte order of their names.
    Object(Seq<Member>),
}

/// A name and its value in an object (RFC 8259 section 4).
#[cycle(json)]
#[derive(Drop)]
pub struct Member {
    pub name: Text,
    pub value: Json,
}
