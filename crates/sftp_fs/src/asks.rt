//! Starts of the calls on paths: a request that fits a frame, or a refusal.
ghost use Rattle.std.specs.Prelude.{◌≡◌, ◌≤◌, true, List, ℕ, IsSome};
ghost use Rattle.sftp_model.specs.Answers.{expected_of};
ghost use Rattle.sftp_model.specs.declared.answers.Expected.TheVariants as expected;
ghost use Rattle.sftp_model.specs.Numbers.{MAX_TRANSFER_LEN};
ghost use Rattle.plan_model.specs.GoodMoves.{FitsFacts};
ghost use Rattle.sftp_model.specs.Frames.{is_too_long};
ghost use Rattle.plan_model.specs.Moves.{offers};
ghost use Rattle.plan_model.specs.PathPlans.{path_done, path_told, path_named};
ghost use Rattle.sftp_core.specs.Core.{is_call};
ghost use Rattle.sftp_core.specs.Info.{info_of};
ghost use Rattle.plan_state.specs.Asked.{IsReady};
ghost use Rattle.sftp_file.specs.Files.{facts_of};
ghost use Rattle.sftp_file.specs.Settles.{settle_meaning};
ghost use Rattle.sftp_file.specs.Tells.{attrs_meaning};
ghost use Rattle.sftp_fs.specs.PathStarts.{AsksFirst, IsPathPlan, MayAskFirst, PathPlan, StartsFrom};
ghost use Rattle.sftp_fs.specs.Names.{name_meaning};

use crate::path_call::{Naming, PathCall};
use bitflags::Flags;
use plan_state::{Asking, PendingCall, PlanRunner};
use sftp_core::Core;
use sftp_file::{AttrsCall, Settling, StatusCall, Telling};
use sftp_model::{Error, Extensions, Facts, IoKind, Request};
use sftp_wire::request_len;

/// Returns true if the body of a request passes 1048575 bytes.
fn is_too_long(request: &Request) -> bool
    ensures { result ≡ is_too_long request.now }
{
    request_len(request).is_none()
}

/// Returns true if the server offers an extension.
pub(crate) fn offers(core: &Core, extension: Extensions) -> bool
    requires { IsSome (info_of core.now.phase) }
    ensures { result ≡ offers (facts_of core.now) extension.0 }
{
    let Some(info) = core.info() else {
        unreachable!()
    };
    info.extensions.bits() & extension.bits() != 0
}

/// Returns the facts that a session fixes.
pub fn facts(core: &Core) -> Facts
    requires { IsSome (info_of core.now.phase) }
    ensures is { result ≡ facts_of core.now }
    ensures write_range { (1 ≤ result.write_len) × (result.write_len ≤ MAX_TRANSFER_LEN) }
    ensures fits { FitsFacts result }
{
    let options = core.options();
    let Some(info) = core.info() else {
        unreachable!()
    };
    Facts {
        extensions: info.extensions,
        read_len: info.read_len,
        write_len: info.write_len,
        write_limit: (options.get_tokio_compat_file_write_limit() as u64).max(1),
        read_window: options.get_read_window().max(1).min(64),
    }
}

/// Submits the first request of a call on paths.
///
/// # Errors
///
/// `IOError(PathTooLong)`, exactly if the body of the request would pass 1048575 bytes; then those of
/// `PendingCall::ask`.
pub fn ask<M: PlanRunner>(
    core: &mut Core,
    request: Request,
    runner: M,
) -> Result<PendingCall<M>, Error>
    requires ready { IsReady core.old }
    requires asks { MayAskFirst M.meaning request runner }
    ensures { AsksFirst M.meaning request runner core.old core.new result }
{
    if is_too_long(&request) {
        return Err(Error::IOError(IoKind::PathTooLong));
    }
    PendingCall::ask(core, Asking::Whole(request), runner)
}

/// Submits a request whose STATUS ends the call.
pub(crate) fn ask_status(core: &mut Core, request: Request) -> Result<StatusCall, Error>
    requires ready { IsReady core.old }
    requires call { is_call request ≡ true }
    requires expects { expected.Status ≡ expected_of request }
    ensures { (cwd : List ℕ) (plan : PathPlan) → IsPathPlan path_done request cwd (facts_of core.old) plan
        → StartsFrom settle_meaning plan cwd core.old core.new result }
{
    ask(core, request, Settling {})
}

/// Submits a request whose ATTRS end the call.
pub(crate) fn ask_attrs(core: &mut Core, request: Request) -> Result<AttrsCall, Error>
    requires ready { IsReady core.old }
    requires call { is_call request ≡ true }
    requires expects { expected.Attrs ≡ expected_of request }
    ensures { (cwd : List ℕ) (plan : PathPlan) → IsPathPlan path_told request cwd (facts_of core.old) plan
        → StartsFrom attrs_meaning plan cwd core.old core.new result }
{
    ask(core, request, Telling {})
}

/// Submits a request whose NAME ends the call.
pub(crate) fn ask_name(core: &mut Core, request: Request) -> Result<PathCall, Error>
    requires ready { IsReady core.old }
    requires call { is_call request ≡ true }
    requires expects { expected.FirstName ≡ expected_of request }
    ensures { (cwd : List ℕ) (plan : PathPlan) → IsPathPlan path_named request cwd (facts_of core.old) plan
        → StartsFrom name_meaning plan cwd core.old core.new result }
{
    ask(core, request, Naming {})
}
