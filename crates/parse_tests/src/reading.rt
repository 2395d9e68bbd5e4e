//! What a text is read as, compared with what is wanted, for each row of a table.
use mig_lex::tokens;
use mig_parse::{ParseError, declaration};
use std::alloc::Global;
use std::process::Abort;
use std::test::Fail;

/// What stands for a text that is no declaration.
const NONE: &str = "no declaration";

/// What stands around the rows of a table: the words before each text, and what these are read as, before and after what the text is.
pub struct Around<'a> {
    pub words: &'a str,
    pub before: &'a str,
    pub after: &'a str,
}

/// The declaration that the text is, as its derived `Debug` writes it.
fn read(alloc: Global, text: &str) -> Result<String, Fail> {
    let tokens = tokens(alloc, text.as_bytes())?;
    match declaration(alloc, &tokens) {
        Ok(found) => Ok(format!(in alloc; "{found:?}")?),
        Err(ParseError::Wrong) => Ok(String::from_str(alloc, NONE)?),
        Err(ParseError::Memory) => Err("out of memory")?,
    }
}

/// Whether the text is a declaration.
pub fn is_declaration(alloc: Global, text: &str) -> Result<bool, Fail> {
    let tokens = tokens(alloc, text.as_bytes())?;
    match declaration(alloc, &tokens) {
        Ok(found) => {
            drop(found);
            Ok(true)
        }
        Err(ParseError::Wrong) => Ok(false),
        Err(ParseError::Memory) => Err("out of memory")?,
    }
}

/// Adds the name of these characters, as its derived `Debug` writes it.
fn push_name(alloc: Global, characters: &str, text: &mut String) -> Result<(), Fail> {
    let bytes = characters.as_bytes();
    let name = format!(in alloc; "Name {{ bytes: {bytes:?} }}")?;
    text.push_str(name.as_str())?;
    Ok(())
}

/// The text in which each `'x'` stands for the name x.
fn with_names(alloc: Global, text: &str) -> Result<String, Fail> {
    let mut written = String::new(alloc);
    let mut named = false;
    for part in text.split('\'') {
        if named {
            push_name(alloc, part, &mut written)?;
        } else {
            written.push_str(part)?;
        }
        named = !named;
    }
    Ok(written)
}

/// The text is read as what is wanted.
fn check_row(rt: &impl Abort, alloc: Global, text: &str, want: &str) -> Result<(), Fail> {
    let found = read(alloc, text)?;
    let want = with_names(alloc, want)?;
    assert_eq!(rt; found.as_str(), want.as_str());
    Ok(())
}

/// The texts, one after the other.
pub fn joined(alloc: Global, texts: &[&str]) -> Result<String, Fail> {
    let mut text = String::new(alloc);
    for part in texts {
        text.push_str(part)?;
    }
    Ok(text)
}

/// Each row: a text, and what it is read as.
pub fn check(rt: &impl Abort, alloc: Global, table: &[(&str, &str)]) -> Result<(), Fail> {
    for (text, want) in table {
        check_row(rt, alloc, text, want)?;
    }
    Ok(())
}

/// The same, with what stands around.
pub fn check_in(
    rt: &impl Abort,
    alloc: Global,
    around: &Around,
    table: &[(&str, &str)],
) -> Result<(), Fail> {
    for (text, want) in table {
        let text = joined(alloc, &[around.words, text])?;
        let want = joined(alloc, &[around.before, want, around.after])?;
        check_row(rt, alloc, text.as_str(), want.as_str())?;
    }
    Ok(())
}

/// None of the texts is a declaration behind the words.
pub fn check_refused(
    rt: &impl Abort,
    alloc: Global,
    words: &str,
    texts: &[&str],
) -> Result<(), Fail> {
    for text in texts {
        let text = joined(alloc, &[words, text])?;
        check_row(rt, alloc, text.as_str(), NONE)?;
    }
    Ok(())
}
