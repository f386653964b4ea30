// Judges widenings of a problem.
ghost use Rattle.std.specs.Prelude.{◌≡◌, ◌↔◌, ◌-◌, Option};
ghost use Rattle.cert.specs.declared.certificate.Cert.TheVariants as certs;
ghost use Rattle.cert.specs.CertificateText.{HasOneEach};
ghost use Rattle.cert_check.specs.declared.answer.Answer.TheVariants as answers;
ghost use Rattle.cert_check.specs.Reasons.{IsAnswer};
ghost use Rattle.cert_check.specs.Sizes.{IsSmallAnswer};
ghost use Rattle.cert_check.specs.Widened.{widened};
ghost use Rattle.widen.specs.declared.widening.Widening.TheVariants.{Least};
ghost use Rattle.widen.specs.Least.{most_extra};
ghost use Rattle.widen.specs.Widening.{HasCycle, IsWideningOf, ShowsWidening, IsAnswerBelow, IsJudged};

use crate::widening::Widening;
use atto::Nano;
use cert::{Chain, Execution};
use cert_check::{Answer, Part, Reason, Verdict, What, check_cycle, obeys_widened};
use problem::Problem;

// The greatest widening.
fn most_extra() -> Nano
    ensures { result ≡ most_extra }
{
    match Nano::new((1 << 62) - 1) {
        Some(most) => most,
        None => unreachable!(),
    }
}

// One less; of nothing, nothing.
fn less(extra: Nano) -> Nano
    ensures { result ≡ extra - 1 }
{
    match Nano::new(extra.get().saturating_sub(1)) {
        Some(less) => less,
        None => unreachable!(),
    }
}

// The answer of the execution, by the bounds of the widened problem.
fn judge_run(p: &Problem, what: What, extra: Nano, execution: &Execution) -> Answer
    requires { HasOneEach p.now execution.now }
    ensures answer { IsAnswer (widened what p.now extra) (certs.Run execution.now) result }
    ensures small { IsSmallAnswer result }
{
    // It tells that the problem is lawful.
    let _ = p.events();
    match obeys_widened(p, what, extra, execution) {
        Verdict::Obeys => Answer::Yes,
        Verdict::Broken {
            bound,
            weight,
            difference,
        } => Answer::No {
            part: Part::Run,
            reason: Reason::Broken {
                bound,
                weight,
                difference,
            },
        },
    }
}

// The answer of the cycle, where there is one, by the weights of the problem that is widened by 1 less.
fn judge_below(p: &Problem, what: What, extra: Nano, cycle: &Option<Chain>) -> Answer
    requires { HasCycle p.now extra cycle.now }
    ensures answer { IsAnswerBelow what p.now extra cycle.now result }
    ensures small { IsSmallAnswer result }
{
    match cycle {
        Some(cycle) => check_cycle(p, what, less(extra), cycle),
        None => Answer::Yes,
    }
}

// The answers of both.
fn judge_least(
    p: &Problem,
    what: What,
    extra: Nano,
    execution: &Execution,
    cycle: &Option<Chain>,
) -> Answer
    requires execution { HasOneEach p.now execution.now }
    requires cycle { HasCycle p.now extra cycle.now }
    ensures judged { IsJudged what p.now (Least extra execution.now cycle.now) result }
    ensures small { IsSmallAnswer result }
{
    match judge_run(p, what, extra, execution) {
        Answer::Yes => judge_below(p, what, extra, cycle),
        broken => broken,
    }
}

/// Whether a widening of what is named shows what it should of `p`, or the first reason why it does not: the first
/// bound that its execution breaks, as part `Run`, where the problem is widened by as much as it says; then, as part
/// `Cycle`, what is wrong with its cycle, by the weights that bounds have where the problem is widened by 1 less, or by
/// those of the greatest widening. What is written as weights is compared and not used. No solver is asked. Sums that
/// it tells are below 2^119 in absolute value, weights below 2^93, differences at most 2^121. It takes no memory.
pub fn judge(p: &Problem, what: What, w: &Widening) -> Answer
    requires { IsWideningOf p.now w.now }
    ensures judged { IsJudged what p.now w.now result }
    ensures exact { ShowsWidening what p.now w.now ↔ (result ≡ answers.Yes) }
    ensures small { IsSmallAnswer result }
{
    // It tells that the problem is lawful.
    let _ = p.events();
    match w {
        Widening::Least {
            extra,
            execution,
            cycle,
        } => judge_least(p, what, *extra, execution, cycle),
        Widening::Never(cycle) => check_cycle(p, what, most_extra(), cycle),
    }
}
