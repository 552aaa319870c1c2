//! Lines to commands.
ghost use Rattle.std.specs.Prelude.{◌≡◌, ◌+◌, ◌*◌, ◌<◌, ◌≤◌, length};
ghost use Rattle.commands.specs.Letters.{field_count};
ghost use Rattle.commands.specs.Fields.{laid_out, field_of, asked_of, request_of};
ghost use Rattle.commands.specs.Line.{command_in, command_of, FirstBytesDecide};
ghost use Rattle.commands.specs.Spelt.{EveryCommandHasALine};

use crate::command::{Command, FormName, Operation};
use crate::fault::TextFault;
use crate::pattern::HexPattern;
use lengths::call::Call;
use sheet::hex::number;
use solver::log::Request;

/// The longest line, in bytes.
const LONGEST: usize = 80;

/// What a line asks for, or why it is refused. The line comes without the byte 10 that ends it.
pub fn parse(line: &[u8]) -> Result<Command, TextFault>
    ensures { result ≡ command_of line.now }
{
    if line.len() > LONGEST {
        return Err(TextFault::LongLine);
    }
    match line {
        [op, space, form, rest @ ..] => {
            let operation = Operation::of_letter(*op).ok_or(TextFault::Letter(0))?;
            let form = FormName::of_letter(*form).ok_or(TextFault::Letter(2))?;
            let lettered = Lettered {
                operation,
                space: *space,
                rest,
            };
            lettered.command(form)
        }
        [op, ..] if Operation::of_letter(*op).is_none() => Err(TextFault::Letter(0)),
        _ => Err(TextFault::Letter(line.len())),
    }
}

/// The first 81 bytes of a line decide what it asks for, so the others need not be kept.
pub fn first_bytes_decide()
    ensures { FirstBytesDecide }
{}

/// Every command has a line that asks for it.
pub fn every_command_has_a_line()
    ensures { EveryCommandHasALine }
{}

// A line of at most 80 bytes by its parts: the operation that its first letter names, the byte behind
// that letter, and what stands behind the letter of the form.
#[derive(Clone, Copy)]
struct Lettered<'a> {
    operation: Operation,
    space: u8,
    rest: &'a [u8],
    ghost short: { length rest.now ≤ 80 },
}

impl Lettered<'_> {
    // The command in a form.
    fn command(&self, form: FormName) -> Result<Command, TextFault>
        ensures { result ≡ command_in form self.now.operation self.now.space self.now.rest.now }
    {
        // An arm a form, since each has patterns of its own type.
        match form {
            FormName::Binary64 => Ok(Command::Binary64(self.request()?)),
            FormName::Binary32 => Ok(Command::Binary32(self.request()?)),
            FormName::Thousandths => Ok(Command::Thousandths(self.request()?)),
        }
    }

    // The request of the operation, in any pattern type: layout first, then digits.
    fn request<P: HexPattern>(&self) -> Result<Request<P>, TextFault>
        ensures { result ≡ request_of P.HexPattern.pattern P.HexPattern.DIGITS self.now.operation
            self.now.space self.now.rest.now }
    {
        if self.space != b' ' || !is_laid_out(P::DIGITS, self.operation.fields(), self.rest) {
            return Err(TextFault::Layout(3 + self.rest.len()));
        }
        self.fields()
    }

    // The request of the operation with its fields, which are laid out.
    fn fields<P: HexPattern>(&self) -> Result<Request<P>, TextFault>
        requires { length self.now.rest.now ≡ field_count self.now.operation * (P.HexPattern.DIGITS + 1) }
        ensures { result ≡ asked_of self.now.operation
            (field_of P.HexPattern.pattern P.HexPattern.DIGITS self.now.rest.now) }
    {
        let call = match self.operation {
            Operation::NewScan => return Ok(Request::NewScan),
            Operation::Hypot => Call::Hypot {
                x: field(self.rest, 0)?,
                y: field(self.rest, 1)?,
            },
            Operation::Cathetus => Call::Cathetus {
                hypotenuse: field(self.rest, 0)?,
                leg: field(self.rest, 1)?,
            },
            Operation::ThreeSides => Call::ThreeSides {
                x: field(self.rest, 0)?,
                y: field(self.rest, 1)?,
                z: field(self.rest, 2)?,
            },
        };
        Ok(Request::Length { call })
    }
}

// Whether so many fields of so many digits stand there, by length and separators alone.
fn is_laid_out(digits: usize, count: usize, rest: &[u8]) -> bool
    requires digits { digits ≤ 16 }
    requires count { count ≤ 3 }
    ensures { result ≡ laid_out digits count rest.now }
{
    rest.len() == count * (digits + 1)
        && rest
            .chunks_exact(digits + 1)
            .all(|field| matches!(field, [b' ', ..]))
}

// The pattern of field `i`, behind its space. By its index: cut off the front, a field would hand on
// the rest and its place beside the pattern, which is no plainer.
fn field<P: HexPattern>(rest: &[u8], i: usize) -> Result<P, TextFault>
    requires index { i < 3 }
    requires within { (i + 1) * (P.HexPattern.DIGITS + 1) ≤ length rest.now }
    ensures { result ≡ field_of P.HexPattern.pattern P.HexPattern.DIGITS rest.now i }
{
    let start = 1 + i * (P::DIGITS + 1);
    let number = number(3 + start, &rest[start..start + P::DIGITS])?;
    Ok(P::from_number(number))
}

#[cfg(test)]
mod tests {
    use super::*;

    #[test]
    fn good_lines(rt: HostRuntime) {
        let hypot = Call::Hypot {
            x: 0x4008_0000_0000_0000,
            y: 0xABCD_EF01_2345_6789,
        };
        assert_eq!(rt;
            parse(b"H d 4008000000000000 ABCDef0123456789"),
            Ok(Command::Binary64(Request::Length { call: hypot }))
        );
        let cathetus = Call::Cathetus {
            hypotenuse: 0x40a0_0000,
            leg: 0x4080_0000,
        };
        assert_eq!(rt;
            parse(b"L s 40a00000 40800000"),
            Ok(Command::Binary32(Request::Length { call: cathetus }))
        );
        let three_sides = Call::ThreeSides {
            x: 3000,
            y: 4000,
            z: u32::MAX,
        };
        assert_eq!(rt;
            parse(b"T m 00000bb8 00000FA0 ffffFFFF"),
            Ok(Command::Thousandths(Request::Length { call: three_sides }))
        );
        assert_eq!(rt; parse(b"N d"), Ok(Command::Binary64(Request::NewScan)));
    }

    #[test]
    fn long_lines(rt: HostRuntime) {
        let mut line = [b' '; 81];
        assert_eq!(rt; parse(&line), Err(TextFault::LongLine));
        line[0] = b'H';
        line[2] = b'd';
        assert_eq!(rt; parse(&line), Err(TextFault::LongLine));
        assert_eq!(rt; parse(&line[..80]), Err(TextFault::Layout(80)));
    }

    #[test]
    fn letters(rt: HostRuntime) {
        assert_eq!(rt; parse(b""), Err(TextFault::Letter(0)));
        assert_eq!(rt; parse(b"H"), Err(TextFault::Letter(1)));
        assert_eq!(rt; parse(b"Hd"), Err(TextFault::Letter(2)));
        assert_eq!(rt; parse(b"Qx"), Err(TextFault::Letter(0)));
        assert_eq!(rt; parse(b"h d"), Err(TextFault::Letter(0)));
        assert_eq!(rt; parse(b"H D"), Err(TextFault::Letter(2)));
        assert_eq!(rt; parse(b"\xff d"), Err(TextFault::Letter(0)));
    }

    #[test]
    fn layouts(rt: HostRuntime) {
        assert_eq!(rt; parse(b"Hxd"), Err(TextFault::Layout(3)));
        assert_eq!(rt; parse(b"H d"), Err(TextFault::Layout(3)));
        assert_eq!(rt; parse(b"N d "), Err(TextFault::Layout(4)));
        assert_eq!(rt; parse(b"H s 0000000g"), Err(TextFault::Layout(12)));
        assert_eq!(rt; parse(b"H s 0000000g,00000000"), Err(TextFault::Layout(21)));
        assert_eq!(rt;
            parse(b"H s 00000000 00000000\r"),
            Err(TextFault::Layout(22))
        );
    }

    #[test]
    fn digits(rt: HostRuntime) {
        assert_eq!(rt; parse(b"H s 0000000G 0000000/"), Err(TextFault::Digit(11)));
        assert_eq!(rt;
            parse(b"H s 00000000 0000000\xff"),
            Err(TextFault::Digit(20))
        );
        assert_eq!(rt; parse(b"H s  0000000 00000000"), Err(TextFault::Digit(4)));
    }
}
