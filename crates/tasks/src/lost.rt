//! A sampler is finished, or nothing is left of it since its ring is gone.
ghost use Rattle.std.specs.Prelude.{IfOk, IsErr};
ghost use Rattle.tasks.specs.Ways.{IsLeftOf};

use channel_ring::SendEnd;
use sampler::{Sampler, SamplerEnd};

/// Nothing is left of a sampler that was finished, since the take end of its ring was dropped
/// before. There is none but of `finish`: so who has one has finished a sampler.
#[derive(Drop)]
pub struct Lost {
    seal: (),
}

/// Finishes a sampler.
pub(crate) fn finish<S: SendEnd>(sampler: Sampler<S>) -> Result<SamplerEnd<S::End>, Lost>
    ensures left { IfOk result (IsLeftOf S.SendEnd S.End.RingEnd sampler) }
    ensures lost { IsErr result → S.is_lost sampler.end }
{
    match sampler.finish() {
        Some(end) => Ok(end),
        None => Err(Lost { seal: () }),
    }
}
