//! The words of `wait`.
ghost use Rattle.std.specs.Prelude.{◌≡◌, ⊤, ℕ, Option, MatchOption, IfSome, unwrap_or};
ghost use Rattle.tai_status.specs.Words.{texts};
ghost use Rattle.cmd_wait.specs.Words.{behind_state, behind_limit, behind_options, first_state, state_in, state_of};
ghost use Rattle.cmd_wait.specs.Words.{order, services_of};
ghost use Rattle.cmd_wait.specs.Words.{AreSeconds, AskNoRestart, AskNothing, Asks, AsksRestart, FirstLimit};

use crate::finding::{Goal, WaitState};
use cmd_svc::is_option;
use sup_core::read_number;

/// What the words ask for.
#[derive(Clone, Copy)]
pub struct WaitOptions<'a> {
    pub goal: Goal,
    /// The most seconds to wait. None means without limit.
    pub limit: Option<u32>,
    pub services: &'a [&'a str],
}

/// Returns the state that an option names.
fn state_of(word: &str) -> Option<WaitState>
    ensures { result ≡ state_of word.now }
{
    match word {
        "-u" => Some(WaitState::Up),
        "-U" => Some(WaitState::Ready),
        "-d" => Some(WaitState::Down),
        "-x" => Some(WaitState::Unsupervised),
        "-r" => Some(WaitState::Another),
        _ => None,
    }
}

/// Returns the state that words begin with.
fn first_state(words: &[&str]) -> Option<WaitState>
    ensures { result ≡ first_state (texts words.now) }
{
    match words {
        [word, ..] => state_of(word),
        [] => None,
    }
}

/// Returns the words after the state that they begin with.
fn behind_state<'a>(words: &'a [&'a str]) -> &'a [&'a str]
    ensures { texts result.now ≡ behind_state (texts words.entry.now) }
{
    match words {
        [word, rest @ ..] if state_of(word).is_some() => rest,
        _ => words,
    }
}

/// Returns the number of seconds that a word says.
fn read_seconds(word: &str) -> Option<u32>
    ensures { MatchOption result
        ((seconds : ℕ) → AreSeconds word.now seconds → ⊥)
        (λ seconds. AreSeconds word.now seconds) }
{
    u32::try_from(read_number(word.as_bytes())?).ok()
}

/// Returns the time that words begin with, if there is one. Returns None if what comes after its `-t` is not a number
/// of seconds.
fn first_limit(words: &[&str]) -> Option<Option<u32>>
    ensures { MatchOption result
        ((limit : Option ℕ) → FirstLimit (texts words.now) limit → ⊥)
        (λ limit. FirstLimit (texts words.now) limit) }
{
    match words {
        [option, seconds, ..] if *option == "-t" => match read_seconds(seconds) {
            Some(seconds) => Some(Some(seconds)),
            None => None,
        },
        _ => Some(None),
    }
}

/// Returns the words after the time that they begin with.
fn behind_limit<'a>(words: &'a [&'a str]) -> &'a [&'a str]
    ensures { texts result.now ≡ behind_limit (texts words.entry.now) }
{
    match words {
        [option, _, rest @ ..] if *option == "-t" => rest,
        _ => words,
    }
}

/// Returns the services that the words after the options name.
fn services_of<'a>(words: &'a [&'a str]) -> &'a [&'a str]
    ensures { texts result.now ≡ services_of (texts words.entry.now) }
{
    match words {
        [first, services @ ..] if *first == "--" => services,
        [first, ..] if is_option(first) => &[],
        _ => words,
    }
}

/// Returns what words ask for: `[-u|-U|-d|-x|-r] [-t SECONDS] SERVICE..`, with the options in either order, and with or
/// without a `--` after them. Returns None if they ask for nothing.
pub fn read_options<'a>(words: &'a [&'a str]) -> Option<WaitOptions<'a>>
    ensures wrong { MatchOption result (AskNothing (texts words.entry.now)) (λ _. ⊤) }
    ensures asks { IfSome result (λ options.
        Asks (texts words.entry.now) (order options.goal options.limit (texts options.services.now))) }
{
    let limit = first_limit(behind_state(words))?;
    let goal = Goal {
        state: state_in(words),
        awaits_supervision: limit.is_some(),
    };
    let services = services_of(behind_options(words));
    if services.is_empty() {
        return None;
    }
    Some(WaitOptions {
        goal,
        limit,
        services,
    })
}

/// Returns the state that words name. If they name none, it is that services are up.
fn state_in(words: &[&str]) -> WaitState
    ensures { result ≡ unwrap_or (state_in (texts words.now)) WaitState.Up }
{
    match first_state(words) {
        Some(state) => state,
        None => first_state(behind_limit(words)).unwrap_or(WaitState::Up),
    }
}

/// Returns the words after the options.
fn behind_options<'a>(words: &'a [&'a str]) -> &'a [&'a str]
    ensures { texts result.now ≡ behind_options (texts words.entry.now) }
{
    match first_state(words) {
        Some(_) => behind_limit(behind_state(words)),
        None => behind_state(behind_limit(words)),
    }
}

/// Returns which restart words ask for: `[-t SECONDS] SERVICE..`, with or without a `--` before the services. Returns
/// None if they ask for none.
pub fn read_restart<'a>(words: &'a [&'a str]) -> Option<WaitOptions<'a>>
    ensures wrong { MatchOption result (AskNoRestart (texts words.entry.now)) (λ _. ⊤) }
    ensures asks { IfSome result (λ options.
        AsksRestart (texts words.entry.now) (order options.goal options.limit (texts options.services.now))) }
{
    let limit = first_limit(words)?;
    let goal = Goal {
        state: WaitState::Another,
        awaits_supervision: limit.is_some(),
    };
    let services = services_of(behind_limit(words));
    if services.is_empty() {
        return None;
    }
    Some(WaitOptions {
        goal,
        limit,
        services,
    })
}
