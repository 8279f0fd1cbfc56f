//! What a match means, as facts about all patterns and texts. The functions do nothing: each contract is a law.
ghost use Rattle.star_match.specs.Laws.{MatchesConcatenations, HasOneCut, WordMatchesItself, StarMatchesAll};
ghost use Rattle.star_match.specs.Laws.{WordAndStarMatchFront, WordStandsAtFirst, AdjacentStarsStand};
ghost use Rattle.star_match.specs.Laws.{ComputesMatches, PairsStand};

/// States that a pattern matches exactly the concatenations of what its bytes take, in the same order. A star at the
/// end takes any bytes, a star before c takes any bytes without c, and each other byte takes itself. The multilog page
/// says it in this way.
pub fn a_match_is_a_concatenation()
    ensures { MatchesConcatenations }
{}

/// States that a text can be cut into such parts in at most one way, if no two stars are adjacent.
pub fn a_match_has_one_cut()
    ensures { HasOneCut }
{}

/// States that a pattern without stars matches itself, and no other text.
pub fn a_word_matches_itself()
    ensures { WordMatchesItself }
{}

/// States that the pattern `*` matches every text.
pub fn a_star_matches_all()
    ensures { StarMatchesAll }
{}

/// States that the pattern `word*` matches exactly the texts that begin with the word.
pub fn a_word_and_a_star_match_a_front()
    ensures { WordAndStarMatchFront }
{}

/// States that the pattern `*word*` matches exactly the texts that contain the word, if the word's first byte does not
/// occur before it.
pub fn a_word_stands_at_its_first_byte()
    ensures { WordStandsAtFirst }
{}

/// States that the test for adjacent stars finds them anywhere in a pattern, and finds nothing else.
pub fn adjacent_stars_stand()
    ensures { AdjacentStarsStand }
{}

/// States that the computed result `star_matches` is the relation `Matches`, if no two stars are adjacent.
pub fn the_answer_is_computed()
    ensures { ComputesMatches }
{}

/// States that a text that a pattern matches has each pair of adjacent bytes of the pattern that has no star.
pub fn pairs_stand()
    ensures { PairsStand }
{}
