//! Numbers of words, and the names that stand behind `--`.
use fx_words::{number_of, read_words};
use std::alloc::{AllocError, Global};
use std::test::Fail;

// The words of a command line.
fn words_of(alloc: Global, texts: &[&str]) -> Result<Vec<String>, AllocError> {
    let mut words = Vec::new(alloc);
    for text in texts {
        words.push(String::from_str(alloc, text)?)?;
    }
    Ok(words)
}

// Whether these are the texts.
fn are_texts(names: &[String], texts: &[&str]) -> bool {
    if names.len() != texts.len() {
        return false;
    }
    for i in 0..names.len() {
        if names[i].as_str() != texts[i] {
            return false;
        }
    }
    true
}

// Whether the words ask for the command of this word with these names.
fn ask_for(alloc: Global, texts: &[&str], verb: &str, names: &[&str]) -> Result<bool, AllocError> {
    let words = words_of(alloc, texts)?;
    let asked = read_words(alloc, &words)?;
    Ok(match asked.command() {
        Some(command) => command.verb.word() == verb && are_texts(command.names, names),
        None => false,
    })
}

#[test]
fn names_stand_as_they_were_given(rt: HostRuntime) -> Result<(), Fail> {
    let table: &[(&[&str], &str, &[&str])] = &[
        (&["fixif", "gain", "a"], "gain", &["a"]),
        (&["fixif", "gain", "--", "-a"], "gain", &["-a"]),
        (&["fixif", "gain", ""], "gain", &[""]),
        (
            &["fixif", "make", "a", "--", "-b", "c"],
            "make",
            &["a", "-b", "c"],
        ),
        (&["fixif", "large", "0042"], "large", &["0042"]),
        (&["fixif", "large", "--", "7"], "large", &["7"]),
    ];
    for (texts, verb, names) in table {
        assert!(rt; ask_for(rt.alloc(), texts, verb, names)?, "{verb}");
    }
    Ok(())
}

#[test]
fn numbers_of_words(rt: HostRuntime) {
    for (word, number) in [
        ("0", Some(0)),
        ("0000000001", Some(1)),
        ("4294967295", Some(4294967295)),
        ("4294967296", None),
        ("00000000001", None),
        ("", None),
        ("+1", None),
        ("1 ", None),
    ] {
        assert_eq!(rt; number_of(word), number, "{word}");
    }
}
