//! The run of a text, from a file or from standard input.
ghost use Rattle.std.specs.Prelude.{IfErr, IfOk, IfSome};
ghost use Rattle.run_file.specs.RunFile.{IsRunText};
ghost use Rattle.explain.specs.RunTexts.{StopsText};

use crate::run_text_fault::RunTextFault;
use crate::why::Why;
use program_input::text_from;
use run_file::Run;
use std::alloc::Global;
use std::io::Read;

/// Reads a run, from a text that is read to its end.
pub fn run_from<I: Read>(alloc: Global, input: &mut I) -> Result<Run, RunTextFault>
    ensures ok { IfOk result (λ run.
        IfSome (I.remaining input.old) (λ text. IsRunText text run)) }
    ensures stops { IfErr result (λ fault.
        IfSome (I.remaining input.old) (λ text. StopsText text fault)) }
{
    let text = text_from(alloc, input)?;
    Ok(Run::read(alloc, &text)?)
}

/// Reads a run, from a text that has this name and is read to its end. After a fault `why` has the
/// reason.
pub fn run_or_why<I: Read>(
    alloc: Global,
    name: &str,
    input: &mut I,
    why: &mut Why,
) -> Result<Run, RunTextFault>
    ensures ok { IfOk result (λ run.
        IfSome (I.remaining input.old) (λ text. IsRunText text run)) }
    ensures stops { IfErr result (λ fault.
        IfSome (I.remaining input.old) (λ text. StopsText text fault)) }
{
    let text = match text_from(alloc, input) {
        Ok(text) => text,
        Err(fault) => {
            why.tell_file(
                name,
                "it can't be read, isn't UTF-8, or has over 67108864 bytes",
            );
            return Err(RunTextFault::from(fault));
        }
    };
    match Run::read(alloc, &text) {
        Ok(run) => Ok(run),
        Err(fault) => {
            why.tell_text(name, &text, fault);
            Err(RunTextFault::from(fault))
        }
    }
}
