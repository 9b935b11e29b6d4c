//! Laws of the definitions. The functions do nothing: what they ensure holds for all values.
ghost use Rattle.std.specs.Prelude.{ℕ};
ghost use Rattle.sftp_model.specs.Fits.{FitsRequest, FitsReply, FitsNumber, FitsLimits, RequestReadsBack, ReplyReadsBack, LimitsReadBack};
ghost use Rattle.sftp_model.specs.declared.config.Limits.{Limits};
ghost use Rattle.sftp_model.specs.declared.reply.Reply.{Reply};
ghost use Rattle.sftp_model.specs.declared.request.Request.{Request};

/// The bytes written for the body of a request or reply that fits a frame are read as the same request or reply; so are
/// limits.
pub fn frames_read_back()
    ensures requests { (r : Request) (id : ℕ) → FitsRequest r → FitsNumber id → RequestReadsBack r id }
    ensures replies { (r : Reply) (id : ℕ) → FitsReply r → FitsNumber id → ReplyReadsBack r id }
    ensures limits { (l : Limits) → FitsLimits l → LimitsReadBack l }
{}
