//! Input to lines.
ghost use Rattle.std.specs.Prelude.{◌≡◌, [], take, if◌then◌else◌, Some, None, nat_eq};
ghost use Rattle.commands.specs.Input.{Reader, behind, PiecesGiveLines, PiecesDoNotMatter};
ghost use Rattle.commands.specs.Pending.{pending, line_kept, last_kept};

use crate::line_buffer::LineBuffer;
use std::mem;

/// The line that has begun and not ended yet, by its first 81 bytes: a longer one is refused
/// whatever its other bytes are.
#[derive(Clone, Copy)]
pub struct Pending {
    line: LineBuffer,
}

impl Pending {
    /// Nothing has begun.
    pub fn new() -> Pending
        ensures { pending result ≡ [] }
    {
        Pending {
            line: LineBuffer::new(),
        }
    }

    /// Takes the input's next byte. Byte 10 ends the line, which is given back.
    pub fn push(&mut self, byte: u8) -> Option<LineBuffer>
        ensures line { line_kept result ≡ (if nat_eq byte 10 then Some (pending self.old) else None) }
        ensures begun { (reader : Reader) → pending self.old ≡ take 81 reader.begun → pending self.new ≡ take 81 (behind reader byte).begun }
    {
        if byte == b'\n' {
            return Some(mem::replace(&mut self.line, LineBuffer::new()));
        }
        self.line.push(byte);
        None
    }

    /// The last line, at the input's end: none where no line has begun.
    pub fn finish(self) -> Option<LineBuffer>
        ensures { line_kept result ≡ last_kept (pending self) }
    {
        if self.line.as_slice().is_empty() {
            None
        } else {
            Some(self.line)
        }
    }
}

/// Read byte by byte, an input gives its lines, however it is cut into pieces.
pub fn pieces_give_lines()
    ensures lines { PiecesGiveLines }
    ensures pieces { PiecesDoNotMatter }
{}

#[cfg(test)]
mod tests {
    use super::*;
    use std::test::Fail;

    #[test]
    fn lines(rt: HostRuntime) -> Result<(), Fail> {
        let mut pending = Pending::new();
        assert!(rt; pending.push(b'a').is_none());
        assert!(rt; pending.push(b'\r').is_none());
        let Some(line) = pending.push(b'\n') else {
            return Err(Fail::new("no line"));
        };
        assert!(rt; line.as_slice() == b"a\r".as_slice());
        assert!(rt; pending.finish().is_none());
        assert!(rt; pending.push(b'b').is_none());
        let Some(last) = pending.finish() else {
            return Err(Fail::new("no last line"));
        };
        assert!(rt; last.as_slice() == b"b".as_slice());
        Ok(())
    }
}
