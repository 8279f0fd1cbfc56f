//! The words of `svscan`.
ghost use Rattle.std.specs.Prelude.{◌≡◌, ℕ, MatchOption, ⊤, IfSome};
ghost use Rattle.svscan_rounds.specs.Words.{ReportsRounds, Asks, AskNothing};
ghost use Rattle.tai_status.specs.Words.{texts};

use sup_core::read_number;

/// What the words ask for.
#[derive(Clone, Copy)]
pub struct Options<'a> {
    pub folder: &'a str,
    /// The number of rounds. None means without limit.
    pub rounds: Option<u32>,
}

/// Returns the number of rounds that a word says.
fn read_rounds(word: &str) -> Option<u32>
    ensures { MatchOption result
        ((number : ℕ) → ReportsRounds word.now number → ⊥)
        (λ number. ReportsRounds word.now number) }
{
    let number = read_number(word.as_bytes())?;
    if number == 0 {
        return None;
    }
    u32::try_from(number).ok()
}

/// Returns what the words `[DIR [N]]` ask for. Returns None if the words are wrong.
pub fn read_words<'a>(words: &'a [&'a str]) -> Option<Options<'a>>
    ensures wrong { MatchOption result (AskNothing (texts words.entry.now)) (λ _. ⊤) }
    ensures asks { IfSome result (λ options.
        Asks (texts words.entry.now) options.folder.now options.rounds) }
{
    match words {
        [] => Some(Options {
            folder: ".",
            rounds: None,
        }),
        [folder] => Some(Options {
            folder,
            rounds: None,
        }),
        [folder, number] => Some(Options {
            folder,
            rounds: Some(read_rounds(number)?),
        }),
        _ => None,
    }
}
