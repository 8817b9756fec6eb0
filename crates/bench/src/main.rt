// The bench tool: verdict text on standard input, the rows of its table on standard output.
#![tactic(auto)]

use decision::Verdicts;
use report::printed_rows;
use std::io::Read;
use std::process::ExitCode;
use text::LIMIT;

// A longer text is refused, so one byte more than it may have is all that need be read.
const ENOUGH: u64 = LIMIT as u64 + 1;

fn main(rt: HostRuntime) -> anyhow::Result<ExitCode> {
    let mut text = Vec::new(rt.alloc());
    let _ = rt.stdin().take(ENOUGH).read_to_end(&mut text)?;
    match printed_rows::<Verdicts>(rt.alloc(), &text)? {
        Ok(lines) => {
            rt.print(lines)?;
            Ok(ExitCode::SUCCESS)
        }
        Err(line) => {
            rt.print(line)?;
            Ok(ExitCode::FAILURE)
        }
    }
}
