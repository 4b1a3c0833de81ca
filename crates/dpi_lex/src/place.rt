//! Where a place lies in a text: its line and its column.

ghost use Rattle.std.specs.Prelude.{◌≡◌, ◌≤◌, length};
ghost use Rattle.dpi_lex.specs.Lexed.{IsText};
ghost use Rattle.dpi_lex.specs.Place.{line_of, column_of};

/// The line and the column of a place of the text, both from 1. A line ends at the byte 10 alone,
/// and a column counts bytes. The place is in bytes from 0, at most the text's length.
pub fn line_column_of(text: &[u8], place: u32) -> (u32, u32)
    requires text { IsText text.now }
    requires place { place ≤ length text.now }
    ensures line { result.0 ≡ line_of text.now place }
    ensures column { result.1 ≡ column_of text.now place }
{
    let mut line = 1;
    let mut column = 1;
    for byte in &text[..place as usize] {
        if *byte == b'\n' {
            line += 1;
            column = 1;
        } else {
            column += 1;
        }
    }
    (line, column)
}
