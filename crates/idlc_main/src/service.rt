//! Calls served to an object of a table's interface.

ghost use Rattle.std.specs.Prelude.{◌≡◌, ◌<◌, IfErr, IfOk, OnOk};
ghost use Rattle.std.specs.Io.KnownBytes.{Appends};
ghost use Rattle.broker_sockets.specs.Lines.{serving};
ghost use Rattle.idlc_main.specs.Answer.{MayServe};
ghost use Rattle.idlc_main.specs.Fault.{status_of};
ghost use Rattle.idlc_main.specs.Service.{IsServed};

use crate::fault::Fault;
use broker_sockets::{ServeOptions, Totals, serve};
use command_files::load;
use command_tables::WholeFiles;
use command_words::Service;
use std::io::Write;
use std::net::Net;
use std::time::Clock;

/// Serves calls by a table, which is checked before anything listens, and tells how much was served.
pub fn run_service<'a, R: WholeFiles + Net + Clock + Eprint + AllocGlobal, O: Write>(
    rt: &R,
    out: &mut O,
    service: &Service<'a>,
) -> Result<Totals, Fault<'a>>
    ensures done { OnOk result (IsServed (R.reads rt.now) service.now) }
    ensures counted { IfOk result (λ totals. totals.connections ≡ service.now.connections) }
    ensures printed { OnOk result
        (Appends (O.contents out.old) (O.contents out.new) (serving service.now.port)) }
    ensures silent { IfErr result (λ fault. status_of fault < 3 → out.new ≡ out.old) }
    ensures memory { IfErr result (λ fault. status_of fault ≡ 4 → MayServe (O.contents out.old) (O.contents out.new)) }
{
    let loaded = match load(rt, service.table) {
        Ok(loaded) => loaded,
        Err(fault) => return Err(Fault::from(fault)),
    };
    let options = ServeOptions {
        port: service.port,
        object: service.object,
        connections: service.connections,
        at_once: service.at_once,
        idle: service.idle,
    };
    match serve(rt, out, loaded.table, &options) {
        Ok(totals) => Ok(totals),
        Err(fault) => Err(Fault::NotServed(fault)),
    }
}
