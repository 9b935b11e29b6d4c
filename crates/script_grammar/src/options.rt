//! The lines that set options of the client.
ghost use Rattle.std.specs.Prelude.{◌≡◌, Some, Ok, OnOk, IfErr};
ghost use Rattle.script_words.specs.Lines.{words_of, two_words, greatest_u32};
ghost use Rattle.script_grammar.specs.Setup.{option_in, option_line};
ghost use Rattle.script_words.specs.Refusals.{RefusesLine};

use crate::draft::Draft;
use script_words::{LineError, Reason, number_from, number_in, two_words};

const MAX_PENDING_REQUESTS: &[u8] = b"max_pending_requests";

const REQUESTS_BUFFER_SIZE: &[u8] = b"requests_buffer_size";

const RESPONSES_BUFFER_SIZE: &[u8] = b"responses_buffer_size";

const TOKIO_COMPAT_FILE_WRITE_LIMIT: &[u8] = b"tokio_compat_file_write_limit";

const MAX_READ_LEN: &[u8] = b"max_read_len";

const MAX_WRITE_LEN: &[u8] = b"max_write_len";

const FLUSH_INTERVAL: &[u8] = b"flush_interval";

const READ_WINDOW: &[u8] = b"read_window";

fn set_max_pending_requests(draft: &mut Draft, word: &[u8]) -> Result<(), LineError>
    ensures ok { OnOk result (option_in draft.old 0 1 65535 word.now (λ n. record draft.old.script.options { max_pending_requests = n }) ≡ Ok draft.new) }
    ensures refused { IfErr result (λ e. RefusesLine (option_in draft.old 0 1 65535 word.now (λ n. record draft.old.script.options { max_pending_requests = n })) e) }
{
    let n = number_in(1, 65535, word)?;
    let options = draft.options().max_pending_requests(n as u16);
    draft.set_options(0, options)
}

fn set_requests_buffer_size(draft: &mut Draft, word: &[u8]) -> Result<(), LineError>
    ensures ok { OnOk result (option_in draft.old 1 1 65536 word.now (λ n. record draft.old.script.options { requests_buffer_size = n }) ≡ Ok draft.new) }
    ensures refused { IfErr result (λ e. RefusesLine (option_in draft.old 1 1 65536 word.now (λ n. record draft.old.script.options { requests_buffer_size = n })) e) }
{
    let n = number_in(1, 65536, word)?;
    let options = draft.options().requests_buffer_size(n as usize);
    draft.set_options(1, options)
}

fn set_responses_buffer_size(draft: &mut Draft, word: &[u8]) -> Result<(), LineError>
    ensures ok { OnOk result (option_in draft.old 2 1 65536 word.now (λ n. record draft.old.script.options { responses_buffer_size = n }) ≡ Ok draft.new) }
    ensures refused { IfErr result (λ e. RefusesLine (option_in draft.old 2 1 65536 word.now (λ n. record draft.old.script.options { responses_buffer_size = n })) e) }
{
    let n = number_in(1, 65536, word)?;
    let options = draft.options().responses_buffer_size(n as usize);
    draft.set_options(2, options)
}

fn set_tokio_compat_file_write_limit(draft: &mut Draft, word: &[u8]) -> Result<(), LineError>
    ensures ok { OnOk result (option_in draft.old 3 1 16777216 word.now (λ n. record draft.old.script.options { tokio_compat_file_write_limit = n }) ≡ Ok draft.new) }
    ensures refused { IfErr result (λ e. RefusesLine (option_in draft.old 3 1 16777216 word.now (λ n. record draft.old.script.options { tokio_compat_file_write_limit = n })) e) }
{
    let n = number_in(1, 16777216, word)?;
    let options = draft.options().tokio_compat_file_write_limit(n as usize);
    draft.set_options(3, options)
}

fn set_max_read_len(draft: &mut Draft, word: &[u8]) -> Result<(), LineError>
    ensures ok { OnOk result (option_in draft.old 4 1 greatest_u32 word.now (λ n. record draft.old.script.options { max_read_len = Some n }) ≡ Ok draft.new) }
    ensures refused { IfErr result (λ e. RefusesLine (option_in draft.old 4 1 greatest_u32 word.now (λ n. record draft.old.script.options { max_read_len = Some n })) e) }
{
    let n = number_from(1, word)?;
    let options = draft.options().max_read_len(n);
    draft.set_options(4, options)
}

fn set_max_write_len(draft: &mut Draft, word: &[u8]) -> Result<(), LineError>
    ensures ok { OnOk result (option_in draft.old 5 1 greatest_u32 word.now (λ n. record draft.old.script.options { max_write_len = Some n }) ≡ Ok draft.new) }
    ensures refused { IfErr result (λ e. RefusesLine (option_in draft.old 5 1 greatest_u32 word.now (λ n. record draft.old.script.options { max_write_len = Some n })) e) }
{
    let n = number_from(1, word)?;
    let options = draft.options().max_write_len(n);
    draft.set_options(5, options)
}

fn set_flush_interval(draft: &mut Draft, word: &[u8]) -> Result<(), LineError>
    ensures ok { OnOk result (option_in draft.old 6 0 1000000 word.now (λ n. record draft.old.script.options { flush_interval = n }) ≡ Ok draft.new) }
    ensures refused { IfErr result (λ e. RefusesLine (option_in draft.old 6 0 1000000 word.now (λ n. record draft.old.script.options { flush_interval = n })) e) }
{
    let n = number_in(0, 1000000, word)?;
    let options = draft.options().flush_interval(n);
    draft.set_options(6, options)
}

fn set_read_window(draft: &mut Draft, word: &[u8]) -> Result<(), LineError>
    ensures ok { OnOk result (option_in draft.old 7 1 64 word.now (λ n. record draft.old.script.options { read_window = n }) ≡ Ok draft.new) }
    ensures refused { IfErr result (λ e. RefusesLine (option_in draft.old 7 1 64 word.now (λ n. record draft.old.script.options { read_window = n })) e) }
{
    let n = number_in(1, 64, word)?;
    let options = draft.options().read_window(n as u32);
    draft.set_options(7, options)
}

/// Sets the option of this name.
fn set_option(draft: &mut Draft, name: &[u8], word: &[u8]) -> Result<(), LineError>
    ensures ok { OnOk result (option_line draft.old name.now word.now ≡ Ok draft.new) }
    ensures refused { IfErr result (λ e. RefusesLine (option_line draft.old name.now word.now) e) }
{
    if name == MAX_PENDING_REQUESTS {
        set_max_pending_requests(draft, word)
    } else if name == REQUESTS_BUFFER_SIZE {
        set_requests_buffer_size(draft, word)
    } else if name == RESPONSES_BUFFER_SIZE {
        set_responses_buffer_size(draft, word)
    } else if name == TOKIO_COMPAT_FILE_WRITE_LIMIT {
        set_tokio_compat_file_write_limit(draft, word)
    } else if name == MAX_READ_LEN {
        set_max_read_len(draft, word)
    } else if name == MAX_WRITE_LEN {
        set_max_write_len(draft, word)
    } else if name == FLUSH_INTERVAL {
        set_flush_interval(draft, word)
    } else if name == READ_WINDOW {
        set_read_window(draft, word)
    } else {
        Err(LineError::Refused(Reason::Mode))
    }
}

/// Reads a line of an option's name and its value.
#[tactic(auto, using(script_words::proofs::Counts::not_two))]
pub(crate) fn option_line(draft: &mut Draft, line: &[u8]) -> Result<(), LineError>
    ensures ok { OnOk result (two_words (option_line draft.old) (words_of line.now) ≡ Ok draft.new) }
    ensures refused { IfErr result (λ e. RefusesLine (two_words (option_line draft.old) (words_of line.now)) e) }
{
    let (name, word) = two_words(line)?;
    set_option(draft, name, word)
}
