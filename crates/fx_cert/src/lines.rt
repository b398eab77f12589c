//! Lines of a text.

ghost use Rattle.std.specs.Prelude.{◌≡◌, option_map};
ghost use Rattle.fx_math.specs.Answers.{Gives};
ghost use Rattle.fx_cert.specs.Laws.{JoinedLaw, LinesLaw};
ghost use Rattle.fx_cert.specs.Lines.{lines_of};
ghost use Rattle.fx_cert.specs.Opened.{lines_with};
ghost use Rattle.fx_cert.specs.Reading.{ended_line, is_memory};

use crate::fault::CertFault;

// The bytes of the first line, whether it is ended, and what follows it.
#[tactic(auto, unfolding(crate::specs::Lines::lines_of))]
pub(crate) fn first_line(bytes: &[u8]) -> Option<(&[u8], bool, &[u8])>
    ensures { lines_of bytes.now ≡ lines_with (option_map (λ p. (p.0.now, p.1, lines_of p.2.now)) result) }
{
    for (i, byte) in bytes.iter().enumerate() {
        if *byte == b'\n' {
            return Some((&bytes[..i], true, &bytes[i + 1..]));
        }
    }
    if bytes.is_empty() {
        None
    } else {
        Some((bytes, false, &bytes[bytes.len()..]))
    }
}

// The bytes of the first line, whose number this is, if it is there and ended, and what follows it.
#[tactic(auto, unfolding(crate::specs::Reading::ended_line))]
pub(crate) fn ended_line(bytes: &[u8], line: u32) -> Result<(&[u8], &[u8]), CertFault>
    ensures { Gives is_memory (λ p. (p.0.now, lines_of p.1.now)) result (ended_line line (lines_of bytes.now)) }
{
    let Some((text, ended, rest)) = first_line(bytes) else {
        return Err(CertFault::Line(line));
    };
    if !ended {
        return Err(CertFault::Line(line));
    }
    Ok((text, rest))
}

/// A law with nothing to run: the lines of a text are lines and make the text, and lines are those of their text.
pub fn lines_make_their_text()
    ensures text { LinesLaw }
    ensures lines { JoinedLaw }
{}
