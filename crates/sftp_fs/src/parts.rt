//! The content of a whole write, part by part, each after the STATUS of OK to the one before.
ghost use Rattle.std.specs.Prelude.{◌≡◌, ◌≤◌, false, ◌∷◌, [], length, drop, refl, IfOk, OnErr};
ghost use Rattle.sftp_model.specs.Numbers.{MAX_TRANSFER_LEN};
ghost use Rattle.sftp_model.specs.declared.slot.Site.{Site};
ghost use Rattle.sftp_fs.specs.Parts.{IsBehind, IsFirst, IsNextPart, PartValue, parts_wait, writing_parts};

use bytes::Bytes;
use plan_state::{Asking, PlanRunner, Then, Told};
use sftp_model::numbers::SSH_FX_OK;
use sftp_model::{Error, Facts, Handle, Reply};
use sftp_values::Items;
use ssh_encoding::OutOfMemory;
use std::alloc::Global;
use std::marker::Model;

/// The WRITE of a part under way.
///
/// Used in `crates/sftp_fs/src/fs_write.rt`.
#[derive(Drop)]
pub struct WritingParts {
    alloc: Global,
    handle: Handle,
    facts: Facts,
    /// The place of the part's WRITE.
    place: u64,
    content: Bytes,
    /// The number of bytes before the part.
    done: usize,
    /// The number of bytes of the part.
    len: usize,
}

impl Model for WritingParts {
    ghost use Rattle.std.specs.Prelude.{◌≡◌, ◌≤◌, ◌+◌, drop, length};
    ghost use Rattle.sftp_model.specs.Numbers.{MAX_TRANSFER_LEN};
    ghost use Rattle.plan_model.specs.TransferPlans.{part_len};
    ghost use Rattle.sftp_fs.specs.Parts.{PartValue};

    ghost Value = { PartValue };

    ghost view = { λ m. record {
      handle = m.handle;
      facts = m.facts;
      place = m.place;
      done = m.done;
      rest = drop m.done m.content;
    } };

    ghost invariant = { λ m. (m.len ≡ part_len m.facts (drop m.done m.content))
        × (m.done + m.len ≤ length m.content)
        × (1 ≤ m.facts.write_len)
        × (m.facts.write_len ≤ MAX_TRANSFER_LEN) };
}

/// Returns the WRITE of the bytes after `done`, up to the limit of the session, and how many they are; `None` if none
/// are left. Fails only if an allocation fails.
fn next_part(
    alloc: Global,
    handle: &Handle,
    facts: &Facts,
    content: &Bytes,
    done: usize,
    place: u64,
) -> Result<Option<(Asking, usize)>, OutOfMemory>
    requires within { done ≤ length content.now }
    requires range { (1 ≤ facts.now.write_len) × (facts.now.write_len ≤ MAX_TRANSFER_LEN) }
    ensures { IfOk result (IsNextPart (record {
      handle = handle.now;
      facts = facts.now;
      place = place;
      done = done;
      rest = drop done content.now;
    })) }
{
    let _place = place;
    let len = (content.len() - done).min(facts.write_len as usize);
    if len == 0 {
        return Ok(None);
    }
    let _short = handle.as_bytes();
    let mut parts = Vec::new(alloc);
    parts.push(content.slice(done..done + len)?)?;
    let asking = Asking::Parts {
        handle: handle.copied(),
        offset: done as u64,
        parts: Items::new(parts),
    };
    Ok(Some((asking, len)))
}

impl WritingParts {
    /// Returns the first part of the content of a file with this handle, or `None` if there is no content. Fails only
    /// if an allocation fails.
    pub(crate) fn first(
        alloc: Global,
        handle: &Handle,
        facts: Facts,
        content: &Bytes,
    ) -> Result<Option<(Asking, WritingParts)>, OutOfMemory>
        requires { (1 ≤ facts.write_len) × (facts.write_len ≤ MAX_TRANSFER_LEN) }
        ensures { IfOk result (IsFirst handle.now facts content.now) }
    {
        let Some((asking, len)) = next_part(alloc, handle, &facts, content, 0, 2)? else {
            return Ok(None);
        };
        let runner = WritingParts {
            alloc,
            handle: handle.copied(),
            facts,
            place: 2,
            content: content.clone()?,
            done: 0,
            len,
        };
        Ok(Some((asking, runner)))
    }

    /// Continues after the part that was written. Fails only if an allocation fails; the runner is unchanged then.
    fn go_behind(&mut self) -> Result<Option<Asking>, OutOfMemory>
        ensures next { IfOk result (IsBehind self.old self.new) }
        ensures unchanged { OnErr result (self.new ≡ self.old) }
    {
        let _len = self.content.len(); // for the contract: the content has less than 2^63 bytes
        let done = self.done + self.len;
        let Some(place) = self.place.checked_add(1) else {
            return Err(OutOfMemory);
        };
        let next = next_part(
            self.alloc,
            &self.handle,
            &self.facts,
            &self.content,
            done,
            place,
        )?;
        let Some((asking, len)) = next else {
            return Ok(None);
        };
        self.place = place;
        self.done = done;
        self.len = len;
        Ok(Some(asking))
    }
}

impl PlanRunner for WritingParts {
    type Value = ();

    ghost World = { Site };

    ghost meaning = { writing_parts };

    ghost waits = { parts_wait };

    ghost stays = { λ (m : PartValue). refl };

    fn at_once(&mut self) -> Option<()> {
        None
    }

    fn on(&mut self, told: Told) -> Then<()> {
        match told {
            Told::Reply(
                Reply::Status {
                    code,
                    message,
                    language,
                },
            ) => {
                if code != SSH_FX_OK {
                    return Then::Done(Err(Error::SftpError {
                        code,
                        message,
                        language,
                    }));
                }
                match self.go_behind() {
                    Ok(None) => Then::Done(Ok(())),
                    Ok(Some(asking)) => Then::Ask(asking),
                    Err(OutOfMemory) => Then::Short(Told::Reply(Reply::Status {
                        code,
                        message,
                        language,
                    })),
                }
            }
            Told::Reply(_) => unreachable!(),
            Told::Granted(_grant) => unreachable!(),
        }
    }
}
