// Answers that have several lines.
ghost use Rattle.std.specs.Prelude.{◌≡◌, IfOk, IfErr, string_bytes};
ghost use Rattle.cases.specs.Endings.{Ends};
ghost use Rattle.report.specs.declared.unanswered.Unanswered.TheVariants.{Memory};

use report::Unanswered;
use std::alloc::Global;

// The answer's lines, or the line of its refusal, ended by a line of its own.
pub fn ended(heap: Global, answer: Result<String, Unanswered>) -> Result<String, Unanswered>
    ensures text { IfOk result (λ text. Ends answer (string_bytes text)) }
    ensures memory { IfErr result (λ e. e ≡ Memory) }
{
    let mut lines = match answer {
        Err(Unanswered::Refused(report)) => format!(in heap; "{report}\n")?,
        answer => answer?,
    };
    lines.push_str("end\n")?;
    Ok(lines)
}
