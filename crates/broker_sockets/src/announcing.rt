//! The line that tells that calls are served.

ghost use Rattle.std.specs.Prelude.{◌≡◌, IfErr, IfOk, OnOk, Some};
ghost use Rattle.std.specs.Io.KnownBytes.{Appends};
ghost use Rattle.std.specs.String.{string_bytes};
ghost use Rattle.broker_sockets.specs.Lines.{serving};
ghost use Rattle.broker_sockets.specs.Serving.{IsUnprinted};

use crate::fault::ServeFault;
use broker_loop::Listener;
use std::alloc::{AllocError, Global};
use std::io::Write;

/// The line that is printed when a port is listened on. The port is as it was asked for.
pub fn serving_line(alloc: Global, port: u16) -> Result<String, AllocError>
    ensures { IfOk result (λ line. string_bytes line ≡ serving port) }
{
    format!(in alloc; "serving {port}\n")
}

/// Listens, and says so by that line.
pub(crate) fn announce<'a, L: Listener, W: Write>(
    alloc: Global,
    listener: &mut L,
    out: &mut W,
    port: u16,
) -> Result<(), ServeFault<'a>>
    ensures came { L.came listener.new ≡ L.came listener.old }
    ensures keeps { L.keeps listener.old listener.new }
    ensures listens { OnOk result (L.port listener.new ≡ Some port) }
    ensures printed { OnOk result (Appends (W.contents out.old) (W.contents out.new) (serving port)) }
    ensures unprinted { IfErr result
        (IsUnprinted port (L.port listener.new) (W.contents out.old) (W.contents out.new)) }
{
    listener.listen(port)?;
    let line = serving_line(alloc, port)?;
    if out.write_all(line.as_bytes()).is_err() || out.flush().is_err() {
        return Err(ServeFault::Unwritten);
    }
    Ok(())
}
