//! Makes the reading of an exhibit.
ghost use Rattle.std.specs.Prelude.{◌≡◌, IfOk};
ghost use Rattle.gen_log.specs.Log.{IsLog};
ghost use Rattle.gen_log.specs.LogReading.{log_of};
ghost use Rattle.gen_log.specs.Verifying.{SaysItIsOf};
ghost use Rattle.gen_chain.specs.Store.{Serves, KeepsAll};
ghost use Rattle.gen_local.specs.Endings.{IsEndingOf, ending_over};
ghost use Rattle.gen_local.specs.FoundLog.{IsFound};
ghost use Rattle.gen_local.specs.Report.{IsReading};
ghost use Rattle.gen_local.specs.Opened.{IsOpening};

use crate::departing::departs;
use crate::exhibits::Exhibit;
use crate::gathering::{gather_entries, put_if};
use crate::heads::{Ending, head_of};
use crate::opening::Opening;
use crate::own_log::OwnLog;
use crate::reading::Reading;
use crate::texts::Text;
use gen_chain::VerifyStore;
use gen_log::Log;
use gen_net::Header;
use gen_types::GeneralNo;
use std::alloc::{AllocError, Global};

/// Returns the reading of an exhibit from what its bytes are and, if they are its log, from the log's last link and
/// seal.
pub fn reading_of(
    alloc: Global,
    header: &Header,
    exhibit: &Exhibit,
    opening: Opening,
    ending: &Ending,
    store: &mut VerifyStore,
) -> Result<Reading, AllocError>
    requires opening { IsOpening header.now exhibit.now.general exhibit.now.bytes opening }
    requires ending { IsEndingOf header.now exhibit.now.general opening ending.now }
    requires serves { Serves header.now store.old }
    ensures reading { IfOk result
        (IsReading header.now exhibit.now.general (log_of header.now exhibit.now.bytes)) }
    ensures grows { KeepsAll store.old store.new }
    ensures serves { Serves header.now store.new }
{
    match opening {
        Opening::Unreadable(fault) => Ok(Reading::Unreadable(fault)),
        Opening::Foreign => Ok(Reading::Foreign),
        Opening::Own(log) => {
            let general = exhibit.general();
            let mut texts = Vec::new(alloc);
            let unsigned = gather_entries(alloc, header, log.entries(), store, &mut texts)?;
            let head = Text::OfHead(head_of(general, &log, &ending.link));
            let sealed = ending.sealed;
            put_if(alloc, &mut texts, sealed, general, head, log.head())?;
            let departure = departs(header, &log);
            Ok(Reading::Own(OwnLog {
                log,
                unsigned,
                sealed,
                departure,
                texts,
            }))
        }
    }
}
