//! How the words of the program ask for a page.
ghost use Rattle.std.specs.Prelude.{◌≡◌, map};
ghost use Rattle.std.specs.Option.{option_copied};
ghost use Rattle.cmd_help.specs.Commands.{page_asked};

/// Returns the command whose page words ask for: they are its name and `--help`.
pub fn page_asked<'a>(words: &[&'a str]) -> Option<&'a str>
    ensures { option_copied result ≡ page_asked (map (λ word. word.now) words.now) }
{
    match words {
        [name, word] if *word == "--help" => Some(*name),
        _ => None,
    }
}
