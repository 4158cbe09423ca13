// Where the tokens of a definition lie: its name, its parameters and its list, one behind the other.
use text::Extent;

#[derive(Clone, Copy)]
pub(crate) struct Entry {
    pub(crate) block: Extent,
    pub(crate) parameters: Option<usize>,
}
