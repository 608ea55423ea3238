#![tactic(auto)]

ghost use Rattle.judge.specs.Judging.{Judged};

// For programs that are not Rattle's, as the fuzz harness: the line of a run on these two files.
#[unsafe(no_mangle)]
pub extern "C" fn judge_line(sheet: &[u8], recording: &[u8], line: &mut [u8; 128])
    ensures judged { Judged sheet.now recording.now line.new }
{
    *line = judge::judge(sheet, recording);
}
