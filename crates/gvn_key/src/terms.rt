//! What statements and entries are made of.
use super::bytes::Bytes;
use super::key::Key;

/// A change of the globals.
#[derive(Debug, Drop)]
pub enum Update {
    /// Gives the node this value.
    Set(Key, Bytes),
    /// Removes the node and all its descendants.
    Kill(Key),
    /// Removes the node's own value alone.
    ZKill(Key),
}

/// What a line of a job asks for. An integer is a canonical one of at most 18 digits.
#[derive(Debug, Drop)]
pub enum Statement {
    /// Gives the node this value.
    Set(Key, Bytes),
    /// Removes the node and all its descendants.
    Kill(Key),
    /// Removes the node's own value alone.
    ZKill(Key),
    /// Adds to the node's value, and answers the sum.
    Incr(Key, i64),
    /// Answers the node's value.
    Get(Key),
    /// Answers whether the node has a value and whether it has descendants.
    Defined(Key),
    /// Answers the next subscript at the level below the node, behind this one. An empty one comes before all.
    Order(Key, Bytes),
    /// Goes on where the node has this value.
    CheckIs(Key, Bytes),
    /// Goes on where the node's value is at least this.
    CheckAtLeast(Key, i64),
}
