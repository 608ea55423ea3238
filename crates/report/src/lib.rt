#![tactic(auto)]

ghost use Rattle.std.specs.Prelude.{◌≡◌, ℕ, ◌+◌, ◌<◌, ◌≤◌, ◌++◌, length, ◌≢◌, slice_index, Some, OnOk};
ghost use Rattle.std.specs.Io.KnownBytes.{Appends};
ghost use Rattle.arrayvec.specs.ArrayString.{array_string_len};
ghost use Rattle.report.specs.Answers.{verdict_word, document_word, cause_number};
ghost use Rattle.report.specs.Line.{refusal_text, first_line, report_text, row_of, text_of};

use line::{Line, put_field, row_of};
use std::{fmt, io};

mod line;

// What a watch comes to: the drive kept to its model, or broke it, or neither can be told.
#[derive(Clone, Copy, Debug, PartialEq, Eq)]
pub enum Verdict {
    Pass,
    Fail,
    Inconclusive,
}

// What a refusal speaks of.
#[derive(Clone, Copy, Debug, PartialEq, Eq)]
pub enum Document {
    Program,
    Sheet,
    Recording,
    Watch,
}

// The rule that something breaks, by number, and where.
// The number stays a u8: a narrower type would ask more of callers, who may say 255.
#[derive(Clone, Copy, Debug, PartialEq, Eq)]
pub struct Refusal {
    pub document: Document,
    pub number: u8,
    pub place: u64,
}

// Why a watch ended: it was closed, a see or a wait broke it, the store had no place left, or
// something was refused. What was refused stands beside the report: a watch's refusal has a type that
// hangs on its trace source.
#[derive(Clone, Copy, Debug, PartialEq, Eq)]
pub enum Cause {
    Closed,
    BrokenSee,
    BrokenWait,
    Overrun,
    Refused,
}

// How a watch ended: its verdict and cause, the items that it took, and the tick from its opening.
#[derive(Clone, Copy, Debug, PartialEq, Eq)]
pub struct Report {
    pub verdict: Verdict,
    pub cause: Cause,
    pub count: u64,
    pub tick: u64,
}

impl Verdict {
    fn word(self) -> &'static str
        ensures word { result.now ≡ verdict_word self }
        ensures short { length result.now ≤ 12 }
    {
        match self {
            Verdict::Pass => "pass",
            Verdict::Fail => "fail",
            Verdict::Inconclusive => "inconclusive",
        }
    }
}

impl fmt::Display for Verdict {
    ghost output = { λ verdict. Some (verdict_word verdict) };

    fn fmt<W: fmt::Write>(&self, f: &mut fmt::Formatter<W>) -> fmt::Result {
        f.write_str(self.word())
    }
}

impl Document {
    fn word(self) -> &'static str
        ensures word { result.now ≡ document_word self }
        ensures short { length result.now ≤ 9 }
    {
        match self {
            Document::Program => "program",
            Document::Sheet => "sheet",
            Document::Recording => "recording",
            Document::Watch => "watch",
        }
    }
}

impl fmt::Display for Document {
    ghost output = { λ document. Some (document_word document) };

    fn fmt<W: fmt::Write>(&self, f: &mut fmt::Formatter<W>) -> fmt::Result {
        f.write_str(self.word())
    }
}

impl Cause {
    // The number of a cause is defined once, in the specs; this match follows it.
    fn number(self) -> u64
        ensures number { result ≡ cause_number self }
        ensures digit { result < 10 }
    {
        match self {
            Cause::Closed => 0,
            Cause::BrokenSee => 1,
            Cause::BrokenWait => 2,
            Cause::Overrun => 3,
            Cause::Refused => 4,
        }
    }
}

// At most 60 bytes: 8 and 9 for the words, 21 for each number behind its blank, and the line feed.
fn put_refusal(line: &mut Line, refusal: Refusal)
    requires room { array_string_len line.old + 60 ≤ 128 }
    ensures text { line.new.bytes ≡ line.old.bytes ++ refusal_text refusal }
{
    line.push_str("refused ");
    line.push_str(refusal.document.word());
    put_field(line, u64::from(refusal.number));
    put_field(line, refusal.place);
    line.push_str("\n");
}

// At most 57 bytes: 12 for the word, 2 for the cause, which is a single digit, 21 for each number, and the line feed.
fn put_first_line(line: &mut Line, report: Report)
    requires room { array_string_len line.old + 57 ≤ 128 }
    ensures text { line.new.bytes ≡ line.old.bytes ++ first_line report }
    ensures short { array_string_len line.new ≤ array_string_len line.old + 57 }
{
    line.push_str(report.verdict.word());
    put_field(line, report.cause.number());
    put_field(line, report.count);
    put_field(line, report.tick);
    line.push_str("\n");
}

impl Refusal {
    // No `write!` into the line, which promises its text only where it answers Ok: tried, and the proof stays open.
    fn text(self) -> Line
        ensures text { result.bytes ≡ refusal_text self }
    {
        let mut line = Line::new();
        put_refusal(&mut line, self);
        line
    }
}

impl fmt::Display for Refusal {
    ghost output = { λ refusal. Some (refusal_text refusal) };

    fn fmt<W: fmt::Write>(&self, f: &mut fmt::Formatter<W>) -> fmt::Result {
        f.write_str(self.text().as_str())
    }
}

impl Report {
    fn text(self) -> Line
        ensures text { result.bytes ≡ first_line self }
        ensures short { length (first_line self) ≤ 57 }
    {
        let mut line = Line::new();
        put_first_line(&mut line, self);
        line
    }
}

impl fmt::Display for Report {
    ghost output = { λ report. Some (first_line report) };

    fn fmt<W: fmt::Write>(&self, f: &mut fmt::Formatter<W>) -> fmt::Result {
        f.write_str(self.text().as_str())
    }
}

// The text of a refusal, and zeros behind it: fixed memory, since the library takes none.
pub fn refusal_line(refusal: Refusal) -> [u8; 128]
    ensures row { result ≡ row_of (refusal_text refusal) }
    ensures whole { length (refusal_text refusal) ≤ 128 }
{
    row_of(&refusal.text())
}

// The text of a report, with the refusal beside it on a second line if there is one, and zeros behind it.
pub fn report_line(report: Report, refusal: Option<Refusal>) -> [u8; 128]
    ensures row { result ≡ row_of (report_text report refusal) }
    ensures whole { length (report_text report refusal) ≤ 128 }
{
    let mut line = report.text();
    if let Some(refusal) = refusal {
        put_refusal(&mut line, refusal);
    }
    row_of(&line)
}

// How many bytes of a row are its text: those before the first zero.
pub fn text_length(row: &[u8]) -> usize
    ensures within { result ≤ length row.now }
    ensures no_zero_before { (k : ℕ) → k < result → slice_index row.now k ≢ 0 }
    ensures then_zero { result < length row.now → slice_index row.now result ≡ 0 }
{
    row.iter().position(|byte| *byte == 0).unwrap_or(row.len())
}

// The text of a row: its bytes before the first zero.
pub fn text(row: &[u8]) -> &[u8]
    ensures before_zero { result.now ≡ text_of row.now }
    ensures no_zero { (k : ℕ) → k < length result.now → slice_index result.now k ≢ 0 }
    ensures then_zero { length result.now < length row.now → slice_index row.now (length result.now) ≡ 0 }
{
    &row[..text_length(row)]
}

// Writes the text of a row, which ends with its own line feed. Nothing is promised on Err, since std's `write_all`
// promises nothing then.
pub fn write_line<W: io::Write>(out: &mut W, row: &[u8]) -> io::Result<()>
    ensures written { OnOk result (Appends (W.contents out.old) (W.contents out.new) (text_of row.now)) }
{
    out.write_all(text(row))
}

#[cfg(test)]
mod tests {
    use super::*;
    use std::fmt::InlineText;

    #[test]
    fn a_pass_closes(rt: HostRuntime) {
        let report = Report {
            verdict: Verdict::Pass,
            cause: Cause::Closed,
            count: 3,
            tick: 4,
        };
        let line = report_line(report, None);
        assert_eq!(rt; &line[0..12], b"pass 0 3 4\n\0".as_slice());
        assert_eq!(rt; InlineText::<64>::of(report).as_str(), "pass 0 3 4\n");
    }

    #[test]
    fn a_sheet_is_refused(rt: HostRuntime) {
        let line = refusal_line(Refusal {
            document: Document::Sheet,
            number: 4,
            place: 0,
        });
        assert_eq!(rt; &line[0..19], b"refused sheet 4 0\n\0".as_slice());
    }

    #[test]
    fn the_text_of_a_row(rt: HostRuntime) {
        let refusal = Refusal {
            document: Document::Recording,
            number: 12,
            place: 345,
        };
        let row = refusal_line(refusal);
        assert_eq!(rt; text(&row), b"refused recording 12 345\n".as_slice());
        assert_eq!(rt;
            InlineText::<64>::of(refusal).as_str(),
            "refused recording 12 345\n"
        );
        assert_eq!(rt; InlineText::<64>::of(Verdict::Fail).as_str(), "fail");
    }

    #[test]
    fn the_longest_report(rt: HostRuntime) {
        let refusal = Refusal {
            document: Document::Recording,
            number: u8::MAX,
            place: u64::MAX,
        };
        let report = Report {
            verdict: Verdict::Inconclusive,
            cause: Cause::Refused,
            count: u64::MAX,
            tick: u64::MAX,
        };
        let line = report_line(report, Some(refusal));
        assert_eq!(rt;
            &line[0..57],
            b"inconclusive 4 18446744073709551615 18446744073709551615\n".as_slice()
        );
        assert_eq!(rt;
            &line[57..101],
            b"refused recording 255 18446744073709551615\n\0".as_slice()
        );
        assert_eq!(rt;
            InlineText::<64>::of(report).as_str(),
            "inconclusive 4 18446744073709551615 18446744073709551615\n"
        );
    }
}
