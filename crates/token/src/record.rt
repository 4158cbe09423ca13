// Where a token of a table lies: its spelling is a part of the table's text.
use crate::Kind;
use text::Extent;

#[derive(Clone, Copy)]
pub(crate) struct Record {
    pub(crate) kind: Kind,
    pub(crate) spelling: Extent,
    pub(crate) line: u32,
    pub(crate) marked: bool,
}
