//! The commands of `envdir --shell`, by which a shell makes the environment of a folder's files.
ghost use Rattle.std.specs.Prelude.{◌≡◌, ◌++◌, List, string_bytes, flat_map, IfOk, OnOk};
ghost use Rattle.env_title.specs.Env.{Binding};
ghost use Rattle.env_title.specs.Files.{env_after, is_hidden};
ghost use Rattle.cmd_envdir.specs.Names.{own_names};
ghost use Rattle.tai_status.specs.Words.{texts};
ghost use Rattle.cmd_envdir.specs.Script.{assignment, names_file, ReadsAsScriptOf};
ghost use Rattle.cmd_envdir.specs.Quoting.{
  are_none,
  env_text,
  escaped,
  file_line,
  is_removed,
  is_set,
  line_by,
  line_of,
  lines_text,
  quoted,
  removed_text,
  script_text,
  set_text,
  start_text,
  word_text,
};

use crate::names::{is_left, is_plain};
use env_title::laws::the_last_file_decides;
use env_title::{Env, EnvFile, Variable};
use std::alloc::{AllocError, Allocator};

/// Adds bytes to a text in single quotes.
fn push_escaped<A: Allocator>(text: &mut Vec<u8, A>, bytes: &[u8]) -> Result<(), AllocError>
    ensures { OnOk result (text.new.items ≡ text.old.items ++ escaped bytes.now) }
{
    for byte in bytes {
        match *byte {
            b'\'' => text.extend_from_slice(b"'\\''")?,
            other => text.push(other)?,
        }
    }
    Ok(())
}

/// Adds a text in single quotes, and a byte.
fn push_quoted<A: Allocator>(text: &mut Vec<u8, A>, value: &str, last: u8) -> Result<(), AllocError>
    ensures { OnOk result (text.new.items ≡ text.old.items ++ quoted value.now last) }
{
    text.push(b'\'')?;
    push_escaped(text, value.as_bytes())?;
    text.push(b'\'')?;
    text.push(last)?;
    Ok(())
}

/// Adds a word in single quotes, and a space.
fn push_word<A: Allocator>(text: &mut Vec<u8, A>, word: &str) -> Result<(), AllocError>
    ensures { OnOk result (text.new.items ≡ text.old.items ++ word_text word.now) }
{
    push_quoted(text, word, b' ')
}

/// Adds the line that gives a variable the value that it has in an environment.
fn push_line<A: Allocator>(
    text: &mut Vec<u8, A>,
    target: &Env<A>,
    name: &str,
) -> Result<(), AllocError>
    ensures { OnOk result (text.new.items ≡ text.old.items ++ line_of target.now name.now) }
{
    match target.get(name) {
        Some(value) => {
            text.extend_from_slice(b"export ")?;
            text.extend_from_slice(name.as_bytes())?;
            text.push(b'=')?;
            push_quoted(text, value, b'\n')
        }
        None => {
            text.extend_from_slice(b"unset ")?;
            text.extend_from_slice(name.as_bytes())?;
            text.push(b'\n')?;
            Ok(())
        }
    }
}

/// Returns whether the name of a file begins with a dot.
fn is_hidden(file: &EnvFile<'_>) -> bool
    ensures { result ≡ is_hidden file.now }
{
    matches!(file.name.as_bytes(), [b'.', ..])
}

/// Adds the line for the variable of a file, if a shell sets it as it is asked to.
fn push_file_line<A: Allocator>(
    text: &mut Vec<u8, A>,
    target: &Env<A>,
    file: &EnvFile<'_>,
) -> Result<(), AllocError>
    ensures { OnOk result (text.new.items ≡ text.old.items ++ file_line target.now file.now) }
{
    if is_hidden(file) || !is_plain(file.name) {
        return Ok(());
    }
    push_line(text, target, file.name)
}

/// Adds the lines for what a shell sets by itself, and for files.
fn push_lines<A: Allocator>(
    text: &mut Vec<u8, A>,
    target: &Env<A>,
    files: &[EnvFile<'_>],
) -> Result<(), AllocError>
    ensures { OnOk result (text.new.items ≡ text.old.items ++ lines_text target.now files.now) }
{
    push_line(text, target, "PWD")?;
    push_line(text, target, "OLDPWD")?;
    push_line(text, target, "IFS")?;
    for file in files {
        push_file_line(text, target, file)?;
    }
    Ok(())
}

/// Returns whether a file that is not hidden has this name.
fn names_file(files: &[EnvFile<'_>], name: &str) -> bool
    ensures { result ≡ names_file files.now name.now }
{
    for file in files {
        if !is_hidden(file) && name == file.name {
            return true;
        }
    }
    false
}

/// Returns whether `env` must remove the variable of a file.
#[tactic(auto, unfolding(crate::specs::Quoting::is_removed))]
fn is_removed<A: Allocator>(target: &Env<A>, file: &EnvFile<'_>) -> bool
    ensures { result ≡ is_removed target.now file.now }
{
    !is_hidden(file) && !is_plain(file.name) && target.get(file.name).is_none()
}

/// Adds the words by which `env` removes the variables of files that a shell does not remove.
fn push_removals<A: Allocator>(
    text: &mut Vec<u8, A>,
    target: &Env<A>,
    files: &[EnvFile<'_>],
) -> Result<(), AllocError>
    ensures { OnOk result (text.new.items ≡ text.old.items ++ flat_map (removed_text target.now) files.now) }
{
    for file in files {
        if is_removed(target, file) {
            push_word(text, "-u")?;
            push_word(text, file.name)?;
        }
    }
    Ok(())
}

/// Returns the word by which `env` sets a variable.
fn assignment<A: Allocator + Clone>(
    alloc: A,
    variable: &Variable<A>,
) -> Result<String<A>, AllocError>
    ensures { IfOk result (λ word. string_bytes word ≡ assignment variable.now.name variable.now.value) }
{
    let mut word = String::from_str(alloc, variable.name())?;
    word.push('=')?;
    word.push_str(variable.value())?;
    Ok(word)
}

/// Returns whether `env` must set a variable.
#[tactic(auto, unfolding(crate::specs::Quoting::is_set))]
fn is_set(files: &[EnvFile<'_>], name: &str) -> bool
    ensures { result ≡ is_set files.now name.now }
{
    !is_plain(name) && (names_file(files, name) || !is_left(name))
}

/// Adds the word by which `env` sets a variable, if a shell does not set it.
fn push_setting<A: Allocator + Clone>(
    alloc: &A,
    text: &mut Vec<u8, A>,
    files: &[EnvFile<'_>],
    variable: &Variable<A>,
) -> Result<(), AllocError>
    ensures { OnOk result (text.new.items ≡ text.old.items ++ set_text files.now variable.now) }
{
    if !is_set(files, variable.name()) {
        return Ok(());
    }
    let word = assignment(alloc.clone()?, variable)?;
    push_word(text, word.as_str())
}

/// Adds the words by which `env` sets the variables that a shell does not set.
fn push_settings<A: Allocator + Clone>(
    alloc: &A,
    text: &mut Vec<u8, A>,
    files: &[EnvFile<'_>],
    target: &[Variable<A>],
) -> Result<(), AllocError>
    ensures { OnOk result (text.new.items ≡ text.old.items ++ flat_map (set_text files.now) target.now) }
{
    for variable in target {
        push_setting(alloc, text, files, variable)?;
    }
    Ok(())
}

/// Returns whether there are no words for `env`.
fn are_none(removals: &[u8], settings: &[u8]) -> bool
    ensures { result ≡ are_none removals.now settings.now }
{
    removals.is_empty() && settings.is_empty()
}

/// Adds the first words of the command that runs a program by `env`.
fn push_env<A: Allocator>(
    text: &mut Vec<u8, A>,
    removals: &[u8],
    settings: &[u8],
) -> Result<(), AllocError>
    ensures { OnOk result (text.new.items ≡ text.old.items ++ env_text removals.now settings.now) }
{
    text.extend_from_slice(b"exec /usr/bin/env ")?;
    text.extend_from_slice(removals)?;
    push_word(text, "--")?;
    text.extend_from_slice(settings)?;
    Ok(())
}

/// Adds the first words of the command that runs a program, by `env` if there are words for `env`.
fn push_start<A: Allocator>(
    text: &mut Vec<u8, A>,
    removals: &[u8],
    settings: &[u8],
) -> Result<(), AllocError>
    ensures { OnOk result (text.new.items ≡ text.old.items ++ start_text removals.now settings.now) }
{
    if are_none(removals, settings) {
        return text.extend_from_slice(b"exec ");
    }
    push_env(text, removals, settings)
}

/// Adds words in single quotes.
fn push_words<A: Allocator>(text: &mut Vec<u8, A>, words: &[&str]) -> Result<(), AllocError>
    ensures { OnOk result (text.new.items ≡ text.old.items ++ flat_map word_text (texts words.now)) }
{
    for word in words {
        push_word(text, word)?;
    }
    Ok(())
}

/// Returns the commands by which a shell makes an environment, and runs these words.
fn text_of<A: Allocator + Clone>(
    alloc: &A,
    files: &[EnvFile<'_>],
    target: &Env<A>,
    variables: &[Variable<A>],
    program: &[&str],
) -> Result<Vec<u8, A>, AllocError>
    requires { variables.now ≡ target.now }
    ensures { IfOk result (λ text. text.items ≡ script_text target.now files.now (texts program.now)) }
{
    let mut removals = Vec::new(alloc.clone()?);
    push_removals(&mut removals, target, files)?;
    let mut settings = Vec::new(alloc.clone()?);
    push_settings(alloc, &mut settings, files, variables)?;
    let mut text = Vec::new(alloc.clone()?);
    push_lines(&mut text, target, files)?;
    push_start(&mut text, removals.as_slice(), settings.as_slice())?;
    push_words(&mut text, program)?;
    Ok(text)
}

/// Returns the commands by which a shell makes the environment of files, and runs the program in these words in its own
/// place.
///
/// `target` is what the files make of the variables that the shell was given.
pub fn shell_text<A: Allocator + Clone>(
    alloc: &A,
    files: &[EnvFile<'_>],
    target: &Env<A>,
    program: &[&str],
) -> Result<Vec<u8, A>, AllocError>
    ensures { (before : List Binding) → target.now ≡ env_after files.now before
        → IfOk result (λ text. ReadsAsScriptOf files.now before (texts program.now) text.items) }
{
    the_last_file_decides();
    text_of(alloc, files, target, target.as_slice(), program)
}
