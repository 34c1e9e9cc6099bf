//! A text's entries, judged.
ghost use Rattle.std.specs.Prelude.{◌≤◌, length};
ghost use Rattle.swap_transcript.specs.Transcripts.{transcript};
ghost use Rattle.swap_transcript.specs.Verdicts.{Answers};

use super::{Judgement, TranscriptRefused, read_transcript};
use std::alloc::Global;
use swap_script::TEXT_LIMIT;

/// Reads a text of at most `TEXT_LIMIT` bytes as a transcript, and judges its entries: the first
/// that is wrong is named, if one is. An entry is wrong where its printed number isn't its place,
/// or where it makes the history not legal.
pub fn check_transcript(alloc: Global, text: &[u8]) -> Result<Judgement, TranscriptRefused>
    requires { length text.now ≤ TEXT_LIMIT }
    ensures { Answers (transcript text.now) result }
{
    let history = match read_transcript(alloc, text) {
        Ok(history) => history,
        Err(refused) => return Err(refused),
    };
    let entries = history.len();
    match history.check(alloc) {
        Ok(verdict) => Ok(Judgement { entries, verdict }),
        Err(_) => Err(TranscriptRefused::NoMemory),
    }
}
