//! Writing whole texts to an output.
ghost use Rattle.std.specs.Prelude.{Ok};
ghost use Rattle.std.specs.List.{flat_map};
ghost use Rattle.output.specs.Sink.{Prints};

use crate::out::{Out, OutFault};

/// Writes all of `bytes`, in as many writes as it needs. It repeats no failed write. A write that
/// takes none of the bytes left is a failure. Errors: `Failed`, with a prefix written.
pub fn write_all<O: Out>(out: &mut O, bytes: &[u8]) -> Result<(), OutFault>
    ensures { Prints result (O.sink out.old) (O.sink out.new) bytes.now }
{
    let mut rest = bytes;
    while !rest.is_empty() {
        let taken = out.write(rest)?;
        if taken == 0 {
            return Err(OutFault::Failed);
        }
        rest = &rest[taken..];
    }
    Ok(())
}

/// Writes the parts one after another, as one text. Errors: `Failed`, with a prefix written.
pub fn write_parts<O: Out>(out: &mut O, parts: &[&[u8]]) -> Result<(), OutFault>
    ensures { Prints result (O.sink out.old) (O.sink out.new)
        (flat_map (λ part. part.now) parts.now) }
{
    for part in parts {
        write_all(out, part)?;
    }
    Ok(())
}
