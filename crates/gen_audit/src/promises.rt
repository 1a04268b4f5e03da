//! What the workers' threads promise.
use crate::hands::Hand;
use gen_local::Exhibit;
use gen_net::Header;
use std::thread::Promise;

/// The promise that a hand, if there is one, has the reports of the pieces that a worker takes.
#[derive(Clone, Copy)]
pub(crate) struct ReportsAs<'a> {
    pub(crate) header: &'a Header,
    pub(crate) exhibits: &'a [Exhibit],
    pub(crate) last: usize,
    pub(crate) worker: usize,
}

impl<'a> Promise<Option<Hand>> for ReportsAs<'a> {
    ghost use Rattle.std.specs.Prelude.{IfSome};
    ghost use Rattle.gen_audit.specs.Loops.Hands.{AreOfWorker};

    ghost kept_by = { λ p r. IfSome r (λ hand.
        AreOfWorker p.header.now p.exhibits.now p.last p.worker hand.reports.items) };
}
