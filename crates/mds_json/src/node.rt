//! JSON values that borrow their strings from the text (RFC 8259).
use mds_text::Units7;

/// A JSON value (RFC 8259) as a tree that borrows its strings from the text. Numbers that aren't
/// plain are strings. `Degrees` occurs in no tree that was read.
#[derive(Drop)]
#[cycle(node)]
pub enum Node<'a> {
    Null,
    Bool(bool),
    Int(i64),
    Text(&'a str),
    Degrees(Units7),
    /// A list of two strings, such as the longitude and latitude of a position.
    Pair(&'a str, &'a str),
    /// A list of such pairs, such as the positions of a ring.
    Pairs(Vec<(&'a str, &'a str)>),
    List(Vec<Node<'a>>),
    Object(Vec<NodeMember<'a>>),
}

/// A member of an object.
#[derive(Drop)]
#[cycle(node)]
pub struct NodeMember<'a> {
    pub name: &'a str,
    pub value: Node<'a>,
}
