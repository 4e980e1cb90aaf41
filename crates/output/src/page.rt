//! Bytes on their way to an output, gathered so that the output gets few writes. A page takes no
//! memory.
ghost use Rattle.std.specs.Prelude.{◌≡◌, [], OnOk};
ghost use Rattle.output.specs.Sink.{Prints};
ghost use Rattle.output.specs.Paging.{Puts};

use crate::byte_array::Bytes;
use crate::out::{Out, OutFault};
use crate::writing::write_all;

/// The bytes that are not written yet.
pub type BytePage = Bytes<1024>;

/// Writes all bytes of the page.
pub fn flush<O: Out>(out: &mut O, page: &mut BytePage) -> Result<(), OutFault>
    ensures empty { OnOk result (page.new.items ≡ []) }
    ensures written { Prints result (O.sink out.old) (O.sink out.new) page.old.items }
{
    write_all(out, page.as_slice())?;
    page.clear();
    Ok(())
}

/// Writes all bytes of the page, and puts bytes on it.
#[cold]
fn put_anew<O: Out>(out: &mut O, page: &mut BytePage, bytes: &[u8]) -> Result<(), OutFault>
    ensures { Puts result (O.sink out.old) (O.sink out.new) page.old.items page.new.items
        bytes.now }
{
    flush(out, page)?;
    if page.extend(bytes) {
        Ok(())
    } else {
        write_all(out, bytes)
    }
}

/// Puts bytes after the bytes of the page. If they do not fit, all bytes are written.
#[inline(always)]
pub fn put<O: Out>(out: &mut O, page: &mut BytePage, bytes: &[u8]) -> Result<(), OutFault>
    ensures { Puts result (O.sink out.old) (O.sink out.new) page.old.items page.new.items
        bytes.now }
{
    if page.extend(bytes) {
        Ok(())
    } else {
        put_anew(out, page, bytes)
    }
}
