//! Reports of a server while a session opens.
ghost use Rattle.std.specs.Prelude.{◌≡◌, Some, IfSome};
ghost use Rattle.sftp_model.specs.declared.flags.Extensions.{Extensions as ExtensionsValue};
ghost use Rattle.plan_model.specs.GoodMoves.{FitsFacts};
ghost use Rattle.sftp_core.specs.Info.{HasLengths, info_of};
ghost use Rattle.sftp_model.specs.Lengths.{offers_limits as offers};
ghost use Rattle.session_model.specs.declared.entry.Entry.TheVariants as entry;
ghost use Rattle.session_model.specs.declared.event.Event.TheVariants.{Submit};
ghost use Rattle.session_model.specs.declared.event.Owner.TheVariants as owner;
ghost use Rattle.sftp_model.specs.declared.request.Request.TheVariants as request;
ghost use Rattle.session_driver.specs.Bare.{offered_extensions};
ghost use Rattle.sftp_lanes.specs.Seen.{facts_by};

use bitflags::Flags;
use session_model::{Entry, Event, Owner};
use session_work::Lanes;
use sftp_core::Info;
use sftp_model::{Extensions, Facts, Reply, Request, SftpOptions};

/// Returns true if a VERSION offers the query for limits.
pub(crate) fn offers_limits(reply: &Reply) -> bool
    ensures { result ≡ offers (offered_extensions (Some reply.now)) }
{
    match reply {
        Reply::Version { extensions, .. } => extensions.contains(Extensions::LIMITS),
        _ => false,
    }
}

/// Returns the entry of the query for limits.
pub(crate) fn query_entry() -> Entry
    ensures { result ≡ entry.Event (Submit owner.Setup 0 request.LimitsQuery) }
{
    Entry::Event(Event::Submit {
        owner: Owner::Setup,
        id: 0,
        request: Request::LimitsQuery,
    })
}

/// Returns the facts that plans use if this is known of the server: lengths, a limit and a window that plans may use.
fn facts_by(info: &Info, options: &SftpOptions) -> Facts
    requires lengths { HasLengths info.now }
    ensures value { (extensions : ExtensionsValue) → result ≡ facts_by options.now extensions (Some info.now) }
    ensures fit { FitsFacts result }
{
    Facts {
        extensions: info.extensions,
        read_len: info.read_len,
        write_len: info.write_len,
        write_limit: 1.max(options.get_tokio_compat_file_write_limit() as u64),
        read_window: 64.min(1.max(options.get_read_window())),
    }
}

/// Records what is known of the server as the facts that plans use from now on.
pub(crate) fn tell(work: &mut Lanes, options: &SftpOptions) -> Option<Info>
    ensures info { result ≡ info_of work.old.core.phase }
    ensures rest { work.new ≡ record work.old { facts = work.new.facts } }
    ensures facts { (extensions : ExtensionsValue) → IfSome result (λ info. work.new.facts ≡ facts_by options.now extensions (Some info)) }
    ensures fit { IfSome result (λ info. FitsFacts work.new.facts) }
{
    let info = work.core.info();
    if let Some(known) = &info {
        work.facts = facts_by(known, options);
    }
    info
}
