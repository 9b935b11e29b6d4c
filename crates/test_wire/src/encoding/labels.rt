//! A label of the tests: each text except the empty one names itself.
ghost use Rattle.std.specs.Prelude.{List, ℕ, Ok, Err, if◌then◌else◌, length, ◌==◌};
ghost use Rattle.std.specs.String.{string_bytes};
ghost use Rattle.ssh_encoding.specs.declared.error.Error.TheVariants as errors;

use crate::encoding::values::is_spelled;
use ssh_encoding::*;
use std::alloc::Global;
use std::test::Fail;

#[derive(Debug, Drop)]
struct Name(String);

impl Label for Name {
    ghost LabelSeen = { List ℕ };

    ghost label_seen = { λ n. string_bytes n.0 };

    ghost meaning = { λ text. if length text == 0 then Err (errors.Label text) else Ok text };

    ghost name_of = { λ n. string_bytes n.0 };

    fn as_str(&self) -> &str {
        self.0.as_str()
    }

    fn from_label(alloc: Global, text: &str) -> Result<Name> {
        if text.is_empty() {
            return Err(Error::Label(LabelError::new(alloc, text)?));
        }
        Ok(Name(String::from_str(alloc, text)?))
    }
}

#[test]
fn label(rt: HostRuntime) -> std::result::Result<(), Fail> {
    assert!(rt; is_spelled::<Name>(rt.alloc(), b"\0\0\0\x03ssh")?);
    Ok(())
}
