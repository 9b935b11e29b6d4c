//! The lines of lanes, turns and calls.
ghost use Rattle.std.specs.Prelude.{◌≡◌, Ok, OnOk, IfErr};
ghost use Rattle.session_model.specs.declared.turn.Turn.TheVariants as turns;
ghost use Rattle.script_words.specs.Lines.{words_of, no_word, one_word};
ghost use Rattle.script_grammar.specs.Scripts.{lane_turn, line_by, session_line, with_lane, with_turn};
ghost use Rattle.script_words.specs.Refusals.{RefusesLine};

use crate::calls::call_line;
use crate::draft::Draft;
use crate::reader::LineReader;
use script_words::{LineError, no_word, number_from, one_word};
use session_model::Turn;
use std::alloc::Global;

const LANE: &[u8] = b"lane";

const STEP: &[u8] = b"step";

const CANCEL: &[u8] = b"cancel";

const FLUSH: &[u8] = b"flush";

const TAKE: &[u8] = b"take";

/// Reads the line of a lane.
#[tactic(auto, using(script_words::proofs::Counts::not_none))]
fn lane_line(alloc: Global, draft: &mut Draft, line: &[u8]) -> Result<(), LineError>
    ensures ok { OnOk result (no_word (with_lane draft.old) (words_of line.now) ≡ Ok draft.new) }
    ensures refused { IfErr result (λ e. RefusesLine (no_word (with_lane draft.old) (words_of line.now)) e) }
{
    no_word(line)?;
    draft.add_lane(alloc)?;
    Ok(())
}

/// Reads the line of a turn that names no lane.
#[tactic(auto, using(script_words::proofs::Counts::not_none))]
fn turn_line(draft: &mut Draft, turn: Turn, line: &[u8]) -> Result<(), LineError>
    ensures ok { OnOk result (no_word (with_turn draft.old turn) (words_of line.now) ≡ Ok draft.new) }
    ensures refused { IfErr result (λ e. RefusesLine (no_word (with_turn draft.old turn) (words_of line.now)) e) }
{
    no_word(line)?;
    draft.add_turn(turn)?;
    Ok(())
}

/// Reads the word after `step`.
#[tactic(auto, using(script_words::proofs::Counts::not_one))]
fn step_line(draft: &mut Draft, line: &[u8]) -> Result<(), LineError>
    ensures ok { OnOk result (one_word (lane_turn draft.old (λ n. turns.Step n)) (words_of line.now) ≡ Ok draft.new) }
    ensures refused { IfErr result (λ e. RefusesLine (one_word (lane_turn draft.old (λ n. turns.Step n)) (words_of line.now)) e) }
{
    let word = one_word(line)?;
    let lane = number_from(0, word)?;
    draft.add_turn(Turn::Step(lane))?;
    Ok(())
}

/// Reads the word after `cancel`.
#[tactic(auto, using(script_words::proofs::Counts::not_one))]
fn cancel_line(draft: &mut Draft, line: &[u8]) -> Result<(), LineError>
    ensures ok { OnOk result (one_word (lane_turn draft.old (λ n. turns.Cancel n)) (words_of line.now) ≡ Ok draft.new) }
    ensures refused { IfErr result (λ e. RefusesLine (one_word (lane_turn draft.old (λ n. turns.Cancel n)) (words_of line.now)) e) }
{
    let word = one_word(line)?;
    let lane = number_from(0, word)?;
    draft.add_turn(Turn::Cancel(lane))?;
    Ok(())
}

/// Reads a line of a lane, a turn or a call, by its first word.
fn session_line(alloc: Global, draft: &mut Draft, word: &[u8], line: &[u8]) -> Result<(), LineError>
    ensures ok { OnOk result (session_line draft.old word.now (words_of line.now) ≡ Ok draft.new) }
    ensures refused { IfErr result (λ e. RefusesLine (session_line draft.old word.now (words_of line.now)) e) }
{
    if word == LANE {
        lane_line(alloc, draft, line)
    } else if word == STEP {
        step_line(draft, line)
    } else if word == CANCEL {
        cancel_line(draft, line)
    } else if word == FLUSH {
        turn_line(draft, Turn::Flush, line)
    } else if word == TAKE {
        turn_line(draft, Turn::Take, line)
    } else {
        call_line(alloc, draft, word, line)
    }
}

impl LineReader for Draft {
    ghost line_by = { line_by };

    #[tactic(auto, using(crate::proofs::Steps::or_refuses))]
    fn read_words(&mut self, alloc: Global, word: &[u8], line: &[u8]) -> Result<(), LineError> {
        if self.read_setup(alloc, word, line)? {
            return Ok(());
        }
        session_line(alloc, self, word, line)
    }
}
