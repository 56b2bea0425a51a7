//! What each fault prints: its number and name, as they stand in `docs/FORMATS.md`, or in a few words what failed.

use crate::given::expect_same;
use pay_day::StampFault;
use pay_fare_file::FareFileFault;
use pay_rules::{AdditionFault, FixFault, PostFault, TapFault};
use pay_session::SessionFault;
use pay_shard::DeskFault;
use pay_statement::StatementFault;
use pay_wire::{Refusal, WriteFault};
use std::alloc::AllocGlobal;
use std::fmt::Display;
use std::process::Abort;

/// Each of these faults prints the text beside it.
pub fn expect_printed<R: Abort + AllocGlobal, F: Display>(rt: &R, rows: &[(F, &str)]) {
    for (fault, text) in rows {
        let printed = fault.to_string(rt.alloc()).expect(rt, "memory for a text");
        expect_same(rt, printed.as_str(), *text);
    }
}

#[test]
fn prints_why_a_line_is_refused(rt: HostRuntime) {
    expect_printed(
        &rt,
        &[
            (Refusal::OutOfTime, "1 OutOfTime"),
            (Refusal::UnknownPlace, "15 UnknownPlace"),
            (Refusal::Conflict, "20 Conflict"),
            (Refusal::AccountFull, "21 AccountFull"),
            (Refusal::FixConflict, "22 FixConflict"),
            (Refusal::FixesFull, "23 FixesFull"),
            (Refusal::Busy, "30 Busy"),
            (Refusal::Window, "31 Window"),
            (Refusal::NotHere, "34 NotHere"),
            (Refusal::StaleQuote, "42 StaleQuote"),
            (Refusal::Store, "43 Store"),
            (Refusal::DeskFault, "44 DeskFault"),
            (Refusal::BadArchive, "45 BadArchive"),
            (Refusal::ArchiveConflict, "46 ArchiveConflict"),
            (Refusal::QuoteDiffers, "47 QuoteDiffers"),
            (Refusal::NotKept, "48 NotKept"),
            (Refusal::NotOver, "49 NotOver"),
            (Refusal::BadLine, "50 BadLine"),
            (Refusal::LongLine, "51 LongLine"),
            (Refusal::Late, "52 Late"),
            (Refusal::Memory, "90 Memory"),
        ],
    );
}

#[test]
fn prints_why_an_account_or_a_shard_refuses(rt: HostRuntime) {
    expect_printed(
        &rt,
        &[
            (AdditionFault::Conflict, "Conflict"),
            (AdditionFault::Full, "Full"),
            (AdditionFault::Memory, "Memory"),
        ],
    );
    expect_printed(
        &rt,
        &[
            (StampFault::OutOfTime, "1 OutOfTime"),
            (StampFault::Memory, "90 Memory"),
        ],
    );
    expect_printed(
        &rt,
        &[
            (TapFault::UnknownPlace, "15 UnknownPlace"),
            (TapFault::Conflict, "20 Conflict"),
            (TapFault::AccountFull, "21 AccountFull"),
            (TapFault::Memory, "90 Memory"),
        ],
    );
    expect_printed(
        &rt,
        &[
            (FixFault::UnknownPlace, "15 UnknownPlace"),
            (FixFault::FixConflict, "22 FixConflict"),
            (FixFault::FixesFull, "23 FixesFull"),
            (FixFault::Memory, "90 Memory"),
        ],
    );
    expect_printed(
        &rt,
        &[
            (pay_shard::ShardRefusal::UnknownPlace, "15 UnknownPlace"),
            (pay_shard::ShardRefusal::Conflict, "20 Conflict"),
            (pay_shard::ShardRefusal::AccountFull, "21 AccountFull"),
            (pay_shard::ShardRefusal::FixConflict, "22 FixConflict"),
            (pay_shard::ShardRefusal::FixesFull, "23 FixesFull"),
        ],
    );
    expect_printed(
        &rt,
        &[
            (DeskFault::Busy, "30 Busy"),
            (DeskFault::Window, "31 Window"),
            (DeskFault::NotKept, "48 NotKept"),
            (DeskFault::Late, "52 Late"),
            (DeskFault::Memory, "90 Memory"),
        ],
    );
}

#[test]
fn prints_why_a_fare_file_or_a_posting_is_refused(rt: HostRuntime) {
    expect_printed(
        &rt,
        &[
            (FareFileFault::NotToml, "10 NotToml"),
            (FareFileFault::MissingKey, "11 MissingKey"),
            (FareFileFault::WrongType, "12 WrongType"),
            (FareFileFault::OutOfRange, "13 OutOfRange"),
            (FareFileFault::Duplicate, "14 Duplicate"),
            (FareFileFault::UnknownPlace, "15 UnknownPlace"),
            (FareFileFault::TooMany, "16 TooMany"),
            (FareFileFault::Memory, "90 Memory"),
        ],
    );
    let late = PostFault::StaleQuote {
        account: 7,
        version: 3,
        through: 19_733,
    };
    expect_printed(
        &rt,
        &[
            (late, "42 StaleQuote"),
            (PostFault::BadArchive, "45 BadArchive"),
            (PostFault::ArchiveConflict, "46 ArchiveConflict"),
            (PostFault::QuoteDiffers, "47 QuoteDiffers"),
            (PostFault::Memory, "90 Memory"),
        ],
    );
}

#[test]
fn prints_which_stream_failed(rt: HostRuntime) {
    expect_printed(
        &rt,
        &[
            (SessionFault::Read { answered: 3 }, "input fault"),
            (SessionFault::Write { answered: 0 }, "output fault"),
        ],
    );
    expect_printed(&rt, &[(StatementFault::Write, "output fault")]);
    expect_printed(&rt, &[(WriteFault::TookNothing, "output fault")]);
}
