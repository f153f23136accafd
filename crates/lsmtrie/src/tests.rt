use super::*;
use std::fs;
use std::test::Fail;

/// Runs the program on these words. Answers its exit status.
fn status(rt: &HostRuntime, text: &str) -> Result<u8, Fail> {
    let mut words = Vec::new(rt.alloc());
    for word in text.split_whitespace() {
        words.push(word.to_string(rt.alloc())?)?;
    }
    Ok(run(rt, &words))
}

#[test]
fn a_file_that_is_not_opened_is_status_9(rt: HostRuntime) -> Result<(), Fail> {
    assert_eq!(rt; status(&rt, "lsmtrie_no_such_file run")?, 9);
    assert_eq!(rt; status(&rt, "lsmtrie_no_such_folder/store init 1 2 1")?, 9);
    Ok(())
}

#[test]
fn faulty_words_open_no_file(rt: HostRuntime) -> Result<(), Fail> {
    for words in [
        "",
        "lsmtrie_words",
        "lsmtrie_words run x",
        "lsmtrie_words init 0 2 1",
    ] {
        assert_eq!(rt; status(&rt, words)?, 1, "of {words:?}");
    }
    assert!(rt; fs::open(&rt, "lsmtrie_words").is_err());
    Ok(())
}

#[test]
fn a_file_is_made_for_a_store_alone(rt: HostRuntime) -> Result<(), Fail> {
    assert_eq!(rt; status(&rt, "lsmtrie_store init 1 2 1")?, 0);
    assert!(rt; fs::open(&rt, "lsmtrie_store").is_ok());
    fs::remove_file(&rt, "lsmtrie_store")?;
    Ok(())
}
