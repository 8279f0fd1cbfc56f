ghost use Rattle.std.specs.Prelude.{◌≡◌, ◌<◌, true, drop, length, IsOk, IsErr, IsErrOf, IfOk, MatchOption};
ghost use Rattle.cmd_svc.specs.Words.{is_option, after_options, order_bytes, service_words, unknown_in};
ghost use Rattle.tai_status.specs.Words.{texts};
ghost use Rattle.cmd_svc.specs.Svc.{RefusesUnknown};

use crate::order::{OrderBytes, SvcFault, SvcOrder};
use std::alloc::{AllocError, Allocator};
use tai_status::{Name, Names};

/// Splits the words of a svc command.
///
/// The option words are those at the front that have two bytes or more, begin with `-` and are not `--`. A `--` right
/// after them is dropped, and the other words are services. The letters are the further bytes of the option words. Each
/// letter is taken once, in the order of its first place.
///
/// Returns `UnknownLetter` for the first unknown letter, even if there is no memory. Otherwise returns `OutOfMemory`
/// only if the allocator refuses the memory for the names of the services. If there are no services, no memory is
/// needed.
pub fn assemble<A: Allocator + Clone>(alloc: A, words: &[&str]) -> Result<SvcOrder<A>, SvcFault>
    ensures bytes { IfOk result (λ order. order.bytes ≡ order_bytes (texts words.now)) }
    ensures services { IfOk result (λ order. order.services ≡ service_words (texts words.now)) }
    ensures refuses { RefusesUnknown (texts words.now) result }
    ensures memory { IsErrOf result SvcFault.OutOfMemory → 0 < length (service_words (texts words.now)) }
{
    let bytes = read_letters(words)?;
    let services = copy_names(alloc, services_of(words)).map_err(|_| SvcFault::OutOfMemory)?;
    Ok(SvcOrder { bytes, services })
}

/// Returns whether a word is an option word.
pub fn is_option(word: &str) -> bool
    ensures { result ≡ is_option word.now }
{
    word.len() >= 2 && word.as_bytes()[0] == b'-' && word != "--"
}

/// Returns the letters of an option word: its bytes without the `-` at the front.
fn letters_of(word: &str) -> &[u8]
    requires { is_option word.now ≡ true }
    ensures { result.now ≡ drop 1 word.now }
{
    &word.as_bytes()[1..]
}

/// Reads the bytes of the option words at the front.
fn read_letters(words: &[&str]) -> Result<OrderBytes, SvcFault>
    ensures fault { MatchOption (unknown_in (texts words.now)) (IsOk result)
        (λ letter. IsErrOf result (SvcFault.UnknownLetter letter)) }
    ensures bytes { IfOk result (λ bytes. bytes ≡ order_bytes (texts words.now)) }
{
    let mut bytes = OrderBytes::new();
    for word in words {
        if !is_option(word) {
            break;
        }
        bytes.add_all(letters_of(word))?;
    }
    Ok(bytes)
}

/// Returns the services among the words.
pub(crate) fn services_of<'a, 'b>(words: &'a [&'b str]) -> &'a [&'b str]
    ensures { texts result.now ≡ service_words (texts words.entry.now) }
{
    let rest = after_options(words);
    match rest {
        [first, services @ ..] if *first == "--" => services,
        _ => rest,
    }
}

/// Returns the words from the first one on that is not an option word.
fn after_options<'a, 'b>(words: &'a [&'b str]) -> &'a [&'b str]
    ensures { texts result.now ≡ after_options (texts words.entry.now) }
{
    let mut rest = words;
    while let [word, tail @ ..] = rest {
        if !is_option(word) {
            return rest;
        }
        rest = tail;
    }
    rest
}

/// Returns copies of the words.
fn copy_names<A: Allocator + Clone>(alloc: A, words: &[&str]) -> Result<Names<A>, AllocError>
    ensures names { IfOk result (λ names. names ≡ texts words.now) }
    ensures memory { IsErr result → 0 < length words.now }
{
    let mut names = Vec::new(alloc);
    for word in words {
        let own = names.allocator().clone()?;
        names.push(Name::new(String::from_str(own, word)?))?;
    }
    Ok(Names::from_vec(names))
}
