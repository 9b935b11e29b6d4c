//! A test of the texts of scripts that are refused.
use script_words::{Reason, ScriptError};
use std::test::Fail;

#[test]
fn texts(rt: HostRuntime) -> Result<(), Fail> {
    let refused = ScriptError::Line {
        line: 3,
        reason: Reason::Word,
    };
    let texts = format!(in rt.alloc(); "{refused}, {}", ScriptError::OutOfMemory)?;
    assert!(rt; texts.as_str() == "line 3 word, out of memory");
    Ok(())
}
