//! That patterns in hexadecimal digits, as answers write them, read back.
ghost use Rattle.commands.specs.Hex.{WrittenReadsBack};

/// A pattern that is written reads back as itself.
pub fn written_reads_back()
    ensures { WrittenReadsBack }
{}
