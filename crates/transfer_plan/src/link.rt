//! The targets of symbolic links.
ghost use Rattle.std.specs.Prelude.{◌≡◌, ◌<◌, ◌-◌, ◌^◌, Some};
ghost use Rattle.machine_model.specs.Components.{parts_of};
ghost use Rattle.transfer_plan.specs.Links.{EndsPart, climbs, depth_after, leads_out};

/// The component that leads to the directory itself.
const SELF: &[u8] = b".";

/// The component that leads to the parent directory.
const ABOVE: &[u8] = b"..";

/// Returns the length of the first component of a text: up to its first slash, or all of it if it has none.
#[tactic(auto, using(crate::proofs::LinkLaws::first_part, crate::proofs::LinkLaws::whole_part))]
fn part_len(names: &[u8]) -> usize
    ensures { EndsPart names.now result }
{
    for at in 0..names.len() {
        if names[at] == b'/' {
            return at;
        }
    }
    names.len()
}

/// Returns the depth after a component, or `None` if the component leads above the root.
fn depth_after(depth: u128, part: &[u8]) -> Option<u128>
    requires { depth < 2 ^ 128 - 1 }
    ensures { result ≡ depth_after depth part.now }
{
    if part.is_empty() || part == SELF {
        return Some(depth);
    }
    if part != ABOVE {
        return Some(depth + 1);
    }
    if depth == 0 { None } else { Some(depth - 1) }
}

/// Returns true if the components of a text lead above the root at some point.
fn climbs(depth: usize, names: &[u8]) -> bool
    ensures { result ≡ climbs (Some depth) (parts_of names.now) }
{
    // With 128 bits the depth and the number of components always fit.
    let mut here = depth as u128;
    let mut rest = names;
    loop {
        let (part, later) = rest.split_at(part_len(rest));
        match depth_after(here, part) {
            Some(depth) => here = depth,
            None => return true,
        }
        match later {
            [] => return false,
            [_, names @ ..] => rest = names,
        }
    }
}

/// Returns true if a symbolic link leads out of the tree that is copied. `names` is the text of the link, which is in a
/// directory `depth` levels below the root of the tree, or in the root itself if that is 0. An empty text leads out, an
/// absolute one does, and so does one whose components lead above the root at some point. Empty components and `.` lead
/// nowhere.
///
/// Only the text is read: if a component is itself a symbolic link, the place to which it leads is not known here.
pub fn leads_out(depth: usize, names: &[u8]) -> bool
    ensures { result ≡ leads_out depth names.now }
{
    match names {
        [] | [b'/', ..] => true,
        _ => climbs(depth, names),
    }
}
