//! The source that looks up the root of a word's leading byte.
//!
//! Its proposal is never above the root, and at most `2^46 + 2^40` below it: an entry is cut to a
//! whole number, which takes less than `2^40`, and the bits behind the leading byte add less than
//! `2^100` to the radicand, so less than `2^46` to a root of 54 bits.
ghost use Rattle.std.specs.Prelude.{◌≡◌, ◌<◌, ◌≤◌, true};
ghost use Rattle.sources.specs.Table.{table_source, byte_root, are_byte_roots};
ghost use Rattle.sources.specs.TableReach.{table_sound};

use crate::root_source::RootSource;

/// Proposes the root of the word's leading byte.
#[derive(Clone, Copy, PartialEq, Eq, Debug)]
pub struct TableSource;

impl RootSource for TableSource {
    ghost meaning = { λ _. table_source };

    ghost sound = { λ s. table_sound };

    fn grade(&self) -> u32 {
        47
    }

    fn propose(&self, word: u64) -> Option<u64> {
        (word >= 1 << 62).then(|| (byte_root(word >> 56) as u64) << 40)
    }
}

// The root of a leading byte.
fn byte_root(byte: u64) -> u16
    requires least { 64 ≤ byte }
    requires most { byte < 256 }
    ensures { result ≡ byte_root byte }
{
    byte_roots()[(byte - 64) as usize]
}

// The table, lent with its rule.
fn byte_roots() -> &'static [u16; 192]
    ensures rule { are_byte_roots 64 result.now ≡ true }
{
    &BYTE_ROOTS
}

// For each byte from 64 to 255 the largest number whose square is at most `byte * 2^20`.
const BYTE_ROOTS: [u16; 192] = [
    8192, 8255, 8319, 8381, 8444, 8505, 8567, 8628, 8688, 8749, 8808, 8868, 8927, 8985, 9043, 9101,
    9158, 9216, 9272, 9329, 9385, 9440, 9496, 9551, 9605, 9660, 9714, 9768, 9821, 9875, 9928, 9980,
    10033, 10085, 10137, 10188, 10240, 10291, 10341, 10392, 10442, 10492, 10542, 10592, 10641,
    10690, 10739, 10788, 10836, 10885, 10933, 10981, 11028, 11076, 11123, 11170, 11217, 11264,
    11310, 11356, 11402, 11448, 11494, 11539, 11585, 11630, 11675, 11720, 11764, 11809, 11853,
    11897, 11941, 11985, 12029, 12072, 12116, 12159, 12202, 12245, 12288, 12330, 12373, 12415,
    12457, 12499, 12541, 12583, 12624, 12666, 12707, 12748, 12789, 12830, 12871, 12912, 12952,
    12993, 13033, 13073, 13113, 13153, 13193, 13232, 13272, 13312, 13351, 13390, 13429, 13468,
    13507, 13546, 13584, 13623, 13661, 13700, 13738, 13776, 13814, 13852, 13890, 13927, 13965,
    14002, 14040, 14077, 14114, 14151, 14188, 14225, 14262, 14299, 14336, 14372, 14408, 14445,
    14481, 14517, 14553, 14589, 14625, 14661, 14697, 14732, 14768, 14803, 14839, 14874, 14909,
    14944, 14979, 15014, 15049, 15084, 15119, 15153, 15188, 15222, 15257, 15291, 15325, 15360,
    15394, 15428, 15462, 15495, 15529, 15563, 15597, 15630, 15664, 15697, 15730, 15764, 15797,
    15830, 15863, 15896, 15929, 15962, 15995, 16028, 16060, 16093, 16125, 16158, 16190, 16223,
    16255, 16287, 16319, 16351,
];

#[cfg(test)]
mod tests {
    use super::*;

    #[test]
    fn entries(rt: HostRuntime) {
        assert_eq!(rt; TableSource.grade(), 47);
        assert_eq!(rt; TableSource.propose(1 << 62), Some(1 << 53));
        assert_eq!(rt; TableSource.propose(u64::MAX), Some(16351 << 40));
    }
}
