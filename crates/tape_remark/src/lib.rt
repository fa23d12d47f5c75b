// The reader of a tape's first remark (document 01, "Load tape").
#![tactic(auto)]

ghost use Rattle.std.specs.Prelude.{◌≡◌, true, MatchOption, MatchResult};
ghost use Rattle.machine.specs.Answers.{refusal_number};
ghost use Rattle.machine.specs.Verdicts.{Accepted};
ghost use Rattle.definition_tape.specs.Layout.{records_of, first_of, Whole};
ghost use Rattle.definition_tape.specs.Remark.{judge_reading, no_span, span_by, span_read, remark_span, remark_text, remark_reading, text_read, place_from};

use machine::Refusal;
use std::ops::Range;
use tape_records::RecordKind;

#[tactic(auto, unfolding(definition_tape::specs::Remark::judge_reading))]
fn judge_reading(tape: &[u8], cells: usize) -> Result<(), Refusal>
    ensures { result ≡ judge_reading tape.now cells }
{
    if !acceptance::size_fits(cells) {
        return Err(Refusal::StoreSize);
    }
    tape_judge::judge_tape(tape, cells)
}

fn span_of(tape: &[u8]) -> Option<Range<usize>>
    requires { Whole (first_of 4 (records_of tape.now)) }
    ensures { span_read (Ok result) ≡ span_by Accepted tape.now (first_of 4 (records_of tape.now)) }
{
    let m = tape_records::hunt(tape, RecordKind::Remark.number())?;
    let start = tape.len() - m.len() + 6;
    Some(start..start + tape_records::record_length(m))
}

// Where the text of the first remark starts and ends on a tape that loads into a store of so many cells.
#[tactic(auto, unfolding(definition_tape::specs::Remark::remark_span))]
pub fn remark_span(tape: &[u8], cells: usize) -> Result<Option<Range<usize>>, Refusal>
    ensures { span_read result ≡ remark_span tape.now cells }
{
    judge_reading(tape, cells)?;
    Ok(span_of(tape))
}

// The first remark's text as a part of the tape.
pub fn remark<'a>(tape: &'a [u8], cells: usize) -> Result<Option<&'a [u8]>, Refusal>
    ensures reading { text_read result ≡ remark_reading tape.now cells }
    ensures place { MatchResult result (λ o. MatchOption o (remark_span tape.now cells ≡ no_span 0) (λ x. (x.now ≡ remark_text tape.now cells) × (x.ref_ptr ≡ place_from tape.entry.ref_ptr (remark_span tape.now cells).start) × ((remark_span tape.now cells).found ≡ true))) (λ q. remark_span tape.now cells ≡ no_span (refusal_number q)) }
{
    match remark_span(tape, cells)? {
        Some(span) => Ok(Some(&tape[span])),
        None => Ok(None),
    }
}
