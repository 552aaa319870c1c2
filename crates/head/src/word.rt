//! The head of a float: a word of 63 or 64 bits over an even power of two, so that the word's root is
//! the float's over a power of two.
ghost use Rattle.std.specs.Prelude.{◌≡◌, ◌/◌, ◌^◌, ◌≤◌};
ghost use Rattle.head.specs.Head.{Heads, Ordinary, HeadExists, HeadIsUnique, HeadIsComputed, pattern_word, pattern_places};

/// The number `word / 4^places`, where the word has 63 or 64 bits.
// Places from 30 to 57 are no ghost field: `head_word` gives a head of any ordinary float, from 2^-83 on.
#[derive(Clone, Copy, PartialEq, Eq, Debug)]
pub struct Head {
    pub word: u64,
    pub places: u32,
}

/// The head of `h`. For inner callers, which see to it that `h` lies from 2^-83 to 128.
pub fn head_word(h: f64) -> Head
    requires { Ordinary h }
    ensures { Heads h result.word result.places }
{
    let bits = h.to_bits();
    Head {
        word: word_of(bits),
        places: places_of(bits),
    }
}

// The significand moved up by 10 or 11 places, so that an even number of them is left.
fn word_of(bits: u64) -> u64
    ensures { result ≡ pattern_word bits }
{
    let significand = bits % 0x10_0000_0000_0000 + 0x10_0000_0000_0000;
    if bits / 0x10_0000_0000_0000 % 2 == 0 {
        significand * 2048
    } else {
        significand * 1024
    }
}

// How often the word is to be quartered.
fn places_of(bits: u64) -> u32
    requires { bits / 2 ^ 52 ≤ 1086 }
    ensures { result ≡ pattern_places bits }
{
    ((1086 - bits / 0x10_0000_0000_0000) / 2) as u32
}

/// Every number of binary64 from 2^-83 to 128 has a head, no float has two, and it is the computed
/// one.
pub fn head_is_determined()
    ensures exists { HeadExists }
    ensures unique { HeadIsUnique }
    ensures computed { HeadIsComputed }
{}
