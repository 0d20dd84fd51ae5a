//! JSON values with whole numbers (RFC 8259).
use crate::units::Units7;

/// A JSON value (RFC 8259) whose numbers are plain whole numbers. `Degrees` occurs only in trees
/// that are made to be printed, never in one that was read.
#[derive(Drop)]
#[cycle(tree)]
pub enum Tree {
    Null,
    Bool(bool),
    Int(i64),
    Text(String),
    Degrees(Units7),
    List(Vec<Tree>),
    Object(Vec<Member>),
}

/// A member of an object.
#[derive(Drop)]
#[cycle(tree)]
pub struct Member {
    pub name: String,
    pub value: Tree,
}
