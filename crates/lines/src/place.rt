//! Where a reader of lines stands.
ghost use Rattle.std.specs.Prelude.{◌≡◌, ◌+◌, ◌<◌, ◌^◌, length};

/// The bytes that are left, and the number of the next line.
#[derive(Clone, Copy)]
pub struct TextPlace<'a> {
    pub rest: &'a [u8],
    /// Counted from 1.
    pub line: u64,
    pub ghost counted: { line + length rest.now < 2 ^ 64 },
}

impl<'a> TextPlace<'a> {
    /// At the first line of a text.
    pub fn start(text: &'a [u8]) -> TextPlace<'a>
        ensures whole { result.rest.now ≡ text.entry.now }
        ensures first { result.line ≡ 1 }
    {
        TextPlace {
            rest: text,
            line: 1,
        }
    }
}
