use env_title::{Env, EnvFault, EnvFile, Title, TitleFault, apply};
use std::alloc::{Allocator, Global};
use std::test::Fail;
use test_base::{Scarce, check, refuse_in_turn};

/// Files, and the variables before and after them, in their order, written by hand.
const FILES: [EnvFile<'static>; 5] = [
    EnvFile {
        name: ".E",
        bytes: b"x",
    },
    EnvFile {
        name: "A",
        bytes: b"x y \t\nrest",
    },
    EnvFile {
        name: "B",
        bytes: b"",
    },
    EnvFile {
        name: "C",
        bytes: b"\n",
    },
    EnvFile {
        name: "D",
        bytes: b"p\0q",
    },
];

const BEFORE: [(&str, &str); 3] = [("B", "1"), ("A", "0"), ("Z", "9")];

const AFTER: [(&str, &str); 4] = [("Z", "9"), ("A", "x y"), ("C", ""), ("D", "p\nq")];

/// Returns whether an environment has these variables, in this order.
fn has<A: Allocator + Clone>(env: &Env<A>, variables: &[(&str, &str)]) -> bool {
    env.len() == variables.len()
        && env.as_slice().iter().zip(variables).all(|(found, (name, value))| found.name() == *name
            && found.value() == *value)
}

/// Applies files to an environment, which does not change.
fn applying(memory: &Scarce<Global>, growths: u64) -> Result<bool, Fail> {
    let mut old = Env::new(memory);
    for (name, value) in BEFORE {
        old.put(
            String::from_str(memory, name)?,
            String::from_str(memory, value)?,
        )?;
    }
    memory.give(growths);
    let fault = apply(memory, &FILES, &old).err();
    let refused = memory.lift();
    check(
        "want of memory",
        fault == refused.then_some(EnvFault::OutOfMemory),
    )?;
    check("what there was", has(&old, &BEFORE))?;
    check(
        "what there is then",
        has(&apply(memory, &FILES, &old)?, &AFTER),
    )?;
    Ok(refused)
}

/// Makes a title, and then its text.
fn titling(memory: &Scarce<Global>, growths: u64) -> Result<bool, Fail> {
    memory.give(growths);
    let fault = Title::new(memory, 8).err();
    let no_title = memory.lift();
    check(
        "a title",
        fault == no_title.then_some(TitleFault::OutOfMemory),
    )?;
    let mut title = Title::new(memory, 8)?;
    title.push_all(b"abcdef");
    memory.give(growths);
    let is_refused = title.text().is_err();
    let no_text = memory.lift();
    check("a text", is_refused == no_text)?;
    check(
        "the text",
        title.text()?.as_slice() == b"...bcdef".as_slice(),
    )?;
    Ok(no_title || no_text)
}

#[test]
fn each_growth_of_environments_and_titles_is_refused_in_turn(rt: HostRuntime) -> Result<(), Fail> {
    refuse_in_turn(rt.alloc(), applying)?;
    refuse_in_turn(rt.alloc(), titling)
}
