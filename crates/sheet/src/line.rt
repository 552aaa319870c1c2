//! Lines of input.
ghost use Rattle.std.specs.Prelude.{◌≡◌};
ghost use Rattle.sheet.specs.Line.{without_newline};

/// A line without the byte 10 at its end, where it has one.
pub fn trimmed(line: &[u8]) -> &[u8]
    ensures { result.now ≡ without_newline line.now }
{
    match line {
        [text @ .., b'\n'] => text,
        _ => line,
    }
}
