//! Tests of each writer, and of a sum of lengths.
ghost use Rattle.std.specs.Prelude.{ℕ};

use bytes::BytesMut;
use ssh_encoding::*;
use std::test::Fail;

/// An absorber that keeps the bytes that it took.
#[derive(Drop)]
struct Kept(Vec<u8>);

impl Absorb for Kept {
    ghost absorbed = { λ k. k.0.items };

    #[tactic(auto, using(ssh_encoding::proofs::Parts::parts))]
    fn absorb(&mut self, bytes: &[u8]) -> std::result::Result<(), OutOfMemory> {
        self.0.extend_from_slice(bytes)?;
        Ok(())
    }
}

#[test]
fn buffer(rt: HostRuntime) -> std::result::Result<(), Fail> {
    let mut buffer = BytesMut::new(rt.alloc());
    buffer.write(b"ab")?;
    assert!(rt; buffer.as_slice() == b"ab".as_slice());
    Ok(())
}

#[test]
fn digest(rt: HostRuntime) -> std::result::Result<(), Fail> {
    let mut kept = Kept(Vec::new(rt.alloc()));
    absorb_value(&7u32, &mut kept)?;
    assert!(rt; kept.0.as_slice() == b"\0\0\0\x07".as_slice());
    Ok(())
}

#[test]
fn sums(rt: HostRuntime) {
    assert!(rt; [4usize, 5, 6].checked_sum() == Ok(15));
}
