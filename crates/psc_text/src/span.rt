//! Places of a source.

ghost use Rattle.std.specs.Prelude.{◌≡◌};

/// A place of a source. Lines and columns count from 1, columns in characters, and the end is the
/// column after the last character.
#[derive(Clone, Copy, Debug, PartialEq, Eq, PartialOrd, Ord, Hash)]
pub struct Span {
    pub line: u32,
    pub column: u32,
    pub end_line: u32,
    pub end_column: u32,
}

impl Span {
    /// The empty place before the first character of a source, for what has no place of its own.
    pub const START: Span = Span {
        line: 1,
        column: 1,
        end_line: 1,
        end_column: 1,
    };

    /// The place from the start of this one to the end of another.
    pub fn to(self, last: Span) -> Span
        ensures starts_here { (result.line ≡ self.line) × (result.column ≡ self.column) }
        ensures ends_there { (result.end_line ≡ last.end_line) × (result.end_column ≡ last.end_column) }
    {
        Span {
            line: self.line,
            column: self.column,
            end_line: last.end_line,
            end_column: last.end_column,
        }
    }
}
