//! Laws of the texts of runs; the functions do nothing, and their clauses hold for all values.
ghost use Rattle.std.specs.Prelude.{◌≡◌, ℕ, List, length};
ghost use Rattle.sftp_model.specs.declared.options.SftpOptions.{SftpOptions};
ghost use Rattle.sftp_model.specs.declared.config.Choice.{Choice};
ghost use Rattle.sftp_model.specs.declared.config.ServerConfig.{ServerConfig};
ghost use Rattle.sftp_model.specs.declared.flags.Extensions.{Extensions};
ghost use Rattle.machine_model.specs.FileTree.{FileTree};
ghost use Rattle.plan_model.specs.declared.call.Lane.{Lane};
ghost use Rattle.session_model.specs.declared.entry.Entry.{Entry};
ghost use Rattle.session_model.specs.declared.turn.Turn.{Turn};
ghost use Rattle.session_model.specs.Readings.{outcomes_below};
ghost use Rattle.script_text.specs.Texts.{text_with_files};
ghost use Rattle.run_laws.specs.Fixed.{IsFixedBy};

/// Two runs of the same lanes under the same turns have one text if files in memory served them. These must have been
/// the same at first, have had the same choices and picks, and have numbered their handles by the grants.
pub fn texts_are_fixed()
    ensures { (lanes : List Lane) (options : SftpOptions) (extensions : Extensions) (turns : List Turn)
        (config : ServerConfig) (choices : List Choice) (picks : List ℕ) (first : FileTree)
        (one : List Entry) (left_one : FileTree) (other : List Entry) (left_other : FileTree)
        → IsFixedBy lanes options extensions turns config choices picks first one left_one
        → IsFixedBy lanes options extensions turns config choices picks first other left_other
        → text_with_files one (outcomes_below one (length lanes)) left_one
        ≡ text_with_files other (outcomes_below other (length lanes)) left_other }
{}
