//! What the faults of a ledger and of a close print.

use crate::faults::expect_printed;
use pay_close::NotClosed;
use pay_ledger::{LedgerFault, OpenFault};
use pay_records::ReadFault;
use pay_rules::PostFault;
use pay_shard::DeskFault;

#[test]
fn prints_why_a_ledger_refuses(rt: HostRuntime) {
    expect_printed(
        &rt,
        &[
            (ReadFault::BadArchive, "45 BadArchive"),
            (ReadFault::Store, "43 Store"),
            (ReadFault::Memory, "90 Memory"),
        ],
    );
    expect_printed(
        &rt,
        &[
            (OpenFault::NotALedger, "40 NotALedger"),
            (OpenFault::Version, "41 Version"),
            (OpenFault::Store, "43 Store"),
            (OpenFault::Memory, "90 Memory"),
        ],
    );
    expect_printed(
        &rt,
        &[
            (LedgerFault::Store, "43 Store"),
            (
                LedgerFault::Refused(PostFault::QuoteDiffers),
                "47 QuoteDiffers",
            ),
        ],
    );
}

#[test]
fn prints_why_a_day_is_not_closed(rt: HostRuntime) {
    expect_printed(
        &rt,
        &[
            (NotClosed::Desk(DeskFault::Late), "44 DeskFault"),
            (NotClosed::Ledger(LedgerFault::Store), "43 Store"),
            (
                NotClosed::Ledger(LedgerFault::Refused(PostFault::Memory)),
                "90 Memory",
            ),
        ],
    );
}
