//! Pairs of adjacent bytes. A text that a pattern matches has each pair of the pattern that has no star.
ghost use Rattle.std.specs.Prelude.{◌≡◌, ◌<◌, ◌≤◌, ℕ, true, List, []};
ghost use Rattle.star_match.specs.Star.{Matches};
ghost use Rattle.star_match.specs.Pairs.{pair_place, IsNeed, AreNeeds, ArePlaces};

use std::marker::Model;

/// The place of no pair, after those of all pairs.
pub(crate) const NO_PAIR: u16 = 512;

/// Returns a pair's place in a table. Different pairs can have the same place.
fn pair_place(byte: u8, next: u8) -> u16
    ensures place { result ≡ pair_place byte next }
    ensures bound { result < NO_PAIR }
{
    (u16::from(byte) * 32 + u16::from(next)) % NO_PAIR
}

/// Returns how rare a byte is in the lines that programs write: from 0, often, to 4, hardly ever.
fn rarity(byte: u8) -> u8
    ensures { result ≤ 4 }
{
    match byte {
        b' ' | b'e' | b'0' | b'1' | b'2' | b':' | b'.' | b'-' => 0,
        b'a' | b'i' | b'n' | b'o' | b'r' | b's' | b't' | b'3'..=b'9' => 1,
        b'c' | b'd' | b'h' | b'l' | b'm' | b'p' | b'u' | b'/' | b'=' | b'[' | b']' => 2,
        b'b' | b'f' | b'g' | b'v' | b'w' | b'y' => 3,
        _ => 4,
    }
}

/// The place of a pair that a text must have, and how rare the pair is. The place [`NO_PAIR`] asks for nothing.
#[derive(Clone, Copy, Debug, PartialEq, Eq)]
pub(crate) struct Need {
    place: u16,
    rank: u8,
}

/// Up to three of a pattern's pairs, the rarest ones.
#[derive(Clone, Copy, Debug, PartialEq, Eq)]
pub(crate) struct Needs {
    first: Need,
    second: Need,
    third: Need,
}

impl Needs {
    /// Returns the rarest pairs of a pattern that have no star.
    pub(crate) fn of(pattern: &[u8]) -> Needs
        ensures { AreNeeds result pattern.now }
    {
        let nothing = Need {
            place: NO_PAIR,
            rank: 0,
        };
        let mut needs = Needs {
            first: nothing,
            second: nothing,
            third: nothing,
        };
        let mut rest = pattern;
        while let [byte, tail @ ..] = rest {
            if let [next, ..] = tail {
                if *byte != b'*' && *next != b'*' {
                    let need = Need {
                        place: pair_place(*byte, *next),
                        rank: rarity(*byte) + rarity(*next) + 1,
                    };
                    needs = needs.with(need);
                }
            }
            rest = tail;
        }
        needs
    }

    /// Returns the three rarest of these and one more.
    fn with(self, need: Need) -> Needs
        ensures { (pattern : List ℕ) → AreNeeds self pattern → IsNeed need.place pattern → AreNeeds result pattern }
    {
        if need.rank > self.first.rank {
            Needs {
                first: need,
                second: self.first,
                third: self.second,
            }
        } else if need.rank > self.second.rank {
            Needs {
                first: self.first,
                second: need,
                third: self.second,
            }
        } else if need.rank > self.third.rank {
            Needs {
                first: self.first,
                second: self.second,
                third: need,
            }
        } else {
            self
        }
    }
}

/// A text whose pairs of adjacent bytes are noted, for matches with many patterns. Contracts see the text.
#[derive(Drop)]
pub struct NotedText<'a> {
    text: &'a [u8],
    places: [bool; NO_PAIR as usize + 1],
}

impl<'a> Model for NotedText<'a> {
    ghost use Rattle.std.specs.Prelude.{List, ℕ};
    ghost use Rattle.star_match.specs.Pairs.{HasPlaces};

    ghost Value = { List ℕ };

    ghost view = { λ noted. noted.text.now };

    ghost invariant = { λ noted. HasPlaces noted.places noted.text.now };
}

impl<'a> NotedText<'a> {
    /// Returns the empty text.
    pub fn new() -> NotedText<'a>
        ensures { result ≡ [] }
    {
        let mut places = [false; NO_PAIR as usize + 1];
        places[NO_PAIR as usize] = true;
        NotedText { text: b"", places }
    }

    /// Takes another text, and notes its pairs. It takes one scan of the text, and no memory of an allocator.
    pub fn note(&mut self, text: &'a [u8])
        ensures { self.new ≡ text.now }
    {
        self.places = [false; NO_PAIR as usize + 1];
        self.places[NO_PAIR as usize] = true;
        let mut rest = text;
        while let [byte, tail @ ..] = rest {
            if let [next, ..] = tail {
                self.places[pair_place(*byte, *next) as usize] = true;
            }
            rest = tail;
        }
        self.text = text;
    }

    /// Returns the text.
    pub fn text(&self) -> &[u8]
        ensures { result.now ≡ self.now }
    {
        self.text
    }

    /// Returns whether the text may have all these pairs. It returns true if the text matches a pattern that needs them.
    pub(crate) fn has_needs(&self, needs: &Needs) -> bool
        requires { ArePlaces needs.now }
        ensures { (pattern : List ℕ) → AreNeeds needs.now pattern → Matches pattern self.now → result ≡ true }
    {
        self.places[needs.first.place as usize]
            & self.places[needs.second.place as usize]
            & self.places[needs.third.place as usize]
    }
}
