// How far a text is read: the offset of the next byte, and its line.
ghost use Rattle.std.specs.Prelude.{◌+◌, ◌≤◌};

#[derive(Clone, Copy)]
pub(crate) struct Position {
    pub(crate) offset: usize,
    pub(crate) line: u32,
    ghost near: { offset ≤ 65535 },
    ghost low: { line ≤ offset + 1 },
}
