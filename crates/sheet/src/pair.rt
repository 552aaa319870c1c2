//! Lines with a pair of probe readings.
ghost use Rattle.std.specs.Prelude.{◌≡◌, Some};
ghost use Rattle.sheet.specs.Pair.{pair_of, solved, fault_text};
ghost use Rattle.sheet.specs.declared.pair.LineFault.TheVariants.{Digit};

use crate::hex::{NotADigit, number};
use std::error::Error;
use std::fmt;
use triangle::resultant::resultant;

/// Two patterns of 32 bits.
#[derive(Clone, Copy, PartialEq, Eq, Debug)]
pub struct Pair {
    pub x: u32,
    pub y: u32,
}

/// What is wrong with a line.
#[derive(Clone, Copy, PartialEq, Eq, Debug)]
pub enum LineFault {
    /// not eight bytes, a space and eight bytes
    Layout,
    /// the place of the first byte that is no hexadecimal digit
    Digit(usize),
}

impl From<NotADigit> for LineFault {
    ghost from_gives = { λ other r. r ≡ Digit other.place };

    fn from(other: NotADigit) -> LineFault {
        LineFault::Digit(other.place)
    }
}

impl fmt::Display for LineFault {
    ghost output = { λ fault. Some (fault_text fault) };

    fn fmt<W: fmt::Write>(&self, f: &mut fmt::Formatter<W>) -> fmt::Result {
        match self {
            LineFault::Layout => f.write_str(
                "not two patterns of 8 hexadecimal digits with one space between",
            ),
            LineFault::Digit(place) => write!(f, "no hexadecimal digit at place {place}"),
        }
    }
}

impl Error for LineFault {}

/// Two readings with their resultant.
#[derive(Clone, Copy, PartialEq, Eq, Debug)]
pub struct Solved {
    pub pair: Pair,
    pub resultant: u32,
}

/// The readings of a line and their resultant.
pub fn solve_line(line: &[u8]) -> Result<Solved, LineFault>
    ensures { result ≡ solved (pair_of line.now) }
{
    let pair = read_pair(line)?;
    Ok(Solved {
        pair,
        resultant: resultant(pair.x, pair.y),
    })
}

/// The two patterns of a line: eight hexadecimal digits, a space, eight hexadecimal digits. The
/// layout is looked at before any digit.
pub fn read_pair(line: &[u8]) -> Result<Pair, LineFault>
    ensures { result ≡ pair_of line.now }
{
    if line.len() != 17 || line[8] != b' ' {
        return Err(LineFault::Layout);
    }
    let x = number(0, &line[0..8])?;
    let y = number(9, &line[9..17])?;
    Ok(Pair {
        x: x as u32,
        y: y as u32,
    })
}

#[cfg(test)]
mod tests {
    use super::*;

    #[test]
    fn good_lines(rt: HostRuntime) {
        assert_eq!(rt;
            read_pair(b"00000bb8 00000fa0"),
            Ok(Pair { x: 3000, y: 4000 })
        );
        let capitals = Pair {
            x: u32::MAX,
            y: 0xabcd_ef01,
        };
        assert_eq!(rt; read_pair(b"FFFFffff ABCDef01"), Ok(capitals));
    }

    #[test]
    fn faulty_lines(rt: HostRuntime) {
        assert_eq!(rt; read_pair(b""), Err(LineFault::Layout));
        assert_eq!(rt; read_pair(b"00000bb8 00000fa"), Err(LineFault::Layout));
        assert_eq!(rt; read_pair(b"00000bb8 00000fa00"), Err(LineFault::Layout));
        assert_eq!(rt; read_pair(b"00000bb8,00000fg0"), Err(LineFault::Layout));
        assert_eq!(rt; read_pair(b"0000/bb8 0000:fa0"), Err(LineFault::Digit(4)));
        assert_eq!(rt; read_pair(b"00000bb8 0000@fa0"), Err(LineFault::Digit(13)));
        assert_eq!(rt; read_pair(b"00000bb8 0000000G"), Err(LineFault::Digit(16)));
        assert_eq!(rt;
            read_pair(b"\xff0000bb8 00000fa0"),
            Err(LineFault::Digit(0))
        );
    }
}
