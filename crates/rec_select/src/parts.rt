//! Puts texts to a sink piece by piece.
ghost use Rattle.std.specs.Prelude.{flat_map, IsOkUnless};
ghost use Rattle.rec_select.specs.Taken.{Prints};

use rec_text::{Fault, Sink, put_all};

/// Puts some parts of a text to a sink, one after another.
pub fn put_parts<S: Sink>(out: &mut S, parts: &[&[u8]]) -> Result<(), Fault>
    ensures printed { Prints S.contents S.failure_count out.old out.new (flat_map (λ part. part.now) parts.now) result }
    ensures refusals { IsOkUnless result Fault.StoreFailed }
{
    for part in parts {
        put_all(out, part)?;
    }
    Ok(())
}
