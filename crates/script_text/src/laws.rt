//! A law of the definitions; the function does nothing, and its ensures clause holds for all values.
ghost use Rattle.std.specs.Prelude.{◌≡◌, List};
ghost use Rattle.sftp_model.specs.declared.outcome.Outcome.{Outcome};
ghost use Rattle.session_model.specs.declared.entry.Entry.{Entry};
ghost use Rattle.session_model.specs.Readings.{trace_of};
ghost use Rattle.script_text.specs.Texts.{text_of};
ghost use Rattle.script_text.specs.Traces.{journal_of};

/// States that the text of a journal is the text of the events that its trace keeps.
pub fn traces_keep_texts()
    ensures { (past : List Entry) (outcomes : List (List Outcome))
        → text_of (journal_of (trace_of past)) outcomes ≡ text_of past outcomes }
{}
