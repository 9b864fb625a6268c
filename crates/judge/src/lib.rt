// Judging a whole log: its records are checked and taken in one pass, and what comes after a break is checked.
#![tactic(auto)]

ghost use Rattle.std.specs.Prelude.{◌≡◌};
ghost use Rattle.model.specs.Answers.{zero_verdict};
ghost use Rattle.judge.specs.Said.{said};
ghost use Rattle.judge.specs.Judge.{judge_of};

use chart_value::AcceptedChart;
use log_check::JudgeRefusal;
use model::{Chart, Verdict};

// Not a `Result` of the verdict: a refusal too hands out a verdict, of zeros (J5).
#[derive(Clone, Copy)]
pub struct Judgement {
    pub answer: Result<(), JudgeRefusal>,
    pub verdict: Verdict,
}

fn refused(refusal: JudgeRefusal) -> Judgement
    ensures { result ≡ record { answer = Err refusal; verdict = zero_verdict } }
{
    Judgement {
        answer: Err(refusal),
        verdict: model::zero_verdict(),
    }
}

// J1 to J6: the verdict over a whole log; or why it is refused, with a verdict of zeros. After a break the rest of the
// log is still checked.
pub fn judge(chart: Chart, log: &[u8]) -> Judgement
    ensures verdict { said result ≡ judge_of chart log.now }
    ensures unchanged { log.exit.now ≡ log.entry.now }
{
    let Ok(accepted) = AcceptedChart::try_from(chart) else {
        return refused(JudgeRefusal::NotAChart);
    };
    let passed = log_pass::pass(&accepted, log);
    let m = passed.monitor;
    let rest = log_check::check_rest(log, passed.at, m.tally.now, m.tally.records);
    match rest {
        Err(fault) => refused(fault.into()),
        Ok(_) => Judgement {
            answer: Ok(()),
            verdict: verdict::verdict_of(&accepted, m),
        },
    }
}
