//! The slots of a lane's site.
ghost use Rattle.std.specs.Prelude.{◌≡◌, ◌<◌, length};
ghost use Rattle.std.specs.List.{list_any};
ghost use Rattle.sftp_model.specs.declared.slot.Slot.TheVariants as slots;
ghost use Rattle.plan_runner.specs.Buffers.{oldest_in, reading_in};
ghost use Rattle.sftp_model.specs.Slots.{slot_at, with_slot, has_grant, slot_has};

use sftp_model::{Site, Slot};

/// Returns the contents of a slot.
pub fn slot_of(site: &Site, slot: u8) -> &Slot
    requires { slot < length site.now.slots }
    ensures { result.now ≡ slot_at site.now slot }
{
    &site.slots.as_slice()[slot as usize]
}

/// Sets the contents of a slot.
pub fn set_slot(site: &mut Site, slot: u8, held: Slot)
    requires { slot < length site.old.slots }
    ensures { site.new ≡ with_slot site.old slot held }
{
    site.slots.set(slot as usize, held);
}

/// Takes out the contents of a slot.
pub fn take_slot(site: &mut Site, slot: u8) -> Slot
    requires { slot < length site.old.slots }
    ensures answer { result ≡ slot_at site.old slot }
    ensures after { site.new ≡ with_slot site.old slot slots.Empty }
{
    site.slots.replace(slot as usize, Slot::Empty)
}

/// Returns the place of the oldest write that the file in a slot has deferred.
pub fn oldest_deferred(site: &Site, slot: u8) -> Option<u64>
    ensures { result ≡ oldest_in (slot_at site.now slot) }
{
    match site.slots.as_slice().get(slot as usize) {
        Some(held) => oldest_in(held),
        None => None,
    }
}

/// Returns the place of the oldest write that a slot's file has deferred.
fn oldest_in(slot: &Slot) -> Option<u64>
    ensures { result ≡ oldest_in slot.now }
{
    match slot {
        Slot::Empty => None,
        Slot::File(_) => None,
        Slot::Buffered(_, buffer) => match buffer.deferred.as_slice() {
            [] => None,
            [write, ..] => Some(write.0),
        },
    }
}

/// Returns the place of the read in flight of the file in a slot.
pub fn reading_under_way(site: &Site, slot: u8) -> Option<u64>
    ensures { result ≡ reading_in (slot_at site.now slot) }
{
    match site.slots.as_slice().get(slot as usize) {
        Some(held) => reading_in(held),
        None => None,
    }
}

/// Returns the place of the read in flight of a slot's file.
fn reading_in(slot: &Slot) -> Option<u64>
    ensures { result ≡ reading_in slot.now }
{
    match slot {
        Slot::Empty => None,
        Slot::File(_) => None,
        Slot::Buffered(_, buffer) => buffer.reading,
    }
}

/// Returns true if some slot has the grant of this place.
pub fn holds_grant(site: &Site, grant: u64) -> bool
    ensures { result ≡ has_grant site.now grant }
{
    some_has(site.slots.as_slice(), grant)
}

/// Returns true if a slot has the grant of this place.
pub fn slot_has(slot: &Slot, grant: u64) -> bool
    ensures { result ≡ slot_has grant slot.now }
{
    match slot {
        Slot::Empty => false,
        Slot::File(file) => file.grant == grant,
        Slot::Buffered(file, _) => file.grant == grant,
    }
}

/// Returns true if some of these slots has the grant of this place.
pub fn some_has(slots: &[Slot], grant: u64) -> bool
    ensures { result ≡ list_any (slot_has grant) slots.now }
{
    slots.iter().any(|slot| slot_has(slot, grant))
}
