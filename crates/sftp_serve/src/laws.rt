//! Laws of the definitions. The functions do nothing: what they ensure holds for all values.
ghost use Rattle.sftp_serve.specs.HandleCounts.{BoundsHandles};
ghost use Rattle.sftp_serve.specs.OtherExtensions.{AnswersNoMore, AnswersOthers};

/// States that after the hello an EXTENDED with a readable id and name is answered if the name is none of the six. Of
/// the bodies that read as no request, no other is answered.
pub fn other_extensions_are_answered()
    ensures answered { AnswersOthers }
    ensures only { AnswersNoMore }
{}

/// States that at most 4096 handles are open after any frames.
pub fn handles_are_bounded()
    ensures { BoundsHandles }
{}
