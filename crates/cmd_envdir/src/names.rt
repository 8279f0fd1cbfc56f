//! Which variables a shell can set.
ghost use Rattle.std.specs.Prelude.{◌≡◌};
ghost use Rattle.std.specs.List.{list_all};
ghost use Rattle.cmd_envdir.specs.Names.{
  is_identifier,
  is_left,
  is_letter,
  is_letter_or_digit,
  is_plain,
  is_reserved,
};

/// Returns whether a byte is an ASCII letter or an underscore.
fn is_letter(byte: u8) -> bool
    ensures { result ≡ is_letter byte }
{
    matches!(byte, b'A'..=b'Z' | b'a'..=b'z' | b'_')
}

/// Returns whether a byte is an ASCII letter, an underscore or a digit.
fn is_letter_or_digit(byte: u8) -> bool
    ensures { result ≡ is_letter_or_digit byte }
{
    is_letter(byte) || byte.is_ascii_digit()
}

/// Returns whether all bytes are ASCII letters, underscores or digits.
fn are_letters_or_digits(bytes: &[u8]) -> bool
    ensures { result ≡ list_all is_letter_or_digit bytes.now }
{
    bytes.iter().all(|byte| is_letter_or_digit(*byte))
}

/// Returns whether bytes are a name for a shell: letters, digits and underscores, and the first one no digit.
#[tactic(auto, unfolding(crate::specs::Names::is_identifier))]
fn is_identifier(bytes: &[u8]) -> bool
    ensures { result ≡ is_identifier bytes.now }
{
    !bytes.is_empty() && !bytes[0].is_ascii_digit() && are_letters_or_digits(bytes)
}

/// Returns whether dash or bash sets a variable by itself, or does not allow it to be set.
fn is_reserved(name: &str) -> bool
    ensures { result ≡ is_reserved name.now }
{
    matches!(
        name,
        "PPID"
            | "UID"
            | "EUID"
            | "GROUPS"
            | "OPTIND"
            | "OPTERR"
            | "LINENO"
            | "SHELLOPTS"
            | "DIRSTACK"
            | "EPOCHSECONDS"
            | "EPOCHREALTIME"
            | "FUNCNAME"
            | "HISTCMD"
            | "PIPESTATUS"
            | "RANDOM"
            | "SECONDS"
            | "SRANDOM"
            | "POSIXLY_CORRECT"
    )
}

/// Returns whether a variable that a shell changes by itself is left as the shell has it.
pub fn is_left(name: &str) -> bool
    ensures { result ≡ is_left name.now }
{
    matches!(name, "_" | "SHLVL" | "PS1" | "PS2" | "PS4") || name.as_bytes().starts_with(b"BASH")
}

/// Returns whether a shell sets the variable with this name as it is asked to.
pub fn is_plain(name: &str) -> bool
    ensures { result ≡ is_plain name.now }
{
    is_identifier(name.as_bytes()) && !is_reserved(name) && !is_left(name)
}
