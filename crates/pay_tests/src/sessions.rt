//! Sessions over a writer that counts its flushes, and fails at one. What sessions answer, and what comes of streams that fail in
//! other ways, is shown by `tests/program.py`.

use crate::desks::empty_desk;
use crate::given::{expect_same, london, sample};
use crate::streams::Flushed;
use pay_session::{Done, SessionFault, session};
use pay_till::NoTill;
use std::process::Abort;

/// Four bus taps, the last one late, the day that they make, and the last one again.
const LINES: &str =
    "TAP 1 1 7 1704697200 50 BUS\nTAP 1 2 7 1704700200 50 BUS\nTAP 1 3 7 1704702200 50 BUS\nTAP 1 4 7 1704696200 50 BUS\nSHOW 7 19730\nTAP 1 4 7 1704696200 50 BUS\n";

/// Its replies.
const REPLIES: &str =
    "OK 19730 175 175\nOK 19730 175 175\nOK 19730 350 350\nOK 19730 350 350\nSHOW 7 19730 4 350\nJNY BUS 50 0 1704696200 175\nJNY BUS 50 0 1704697200 0\nJNY BUS 50 0 1704700200 175\nJNY BUS 50 0 1704702200 0\nAGAIN 19730 350 350\n";

/// Where its replies end.
static ENDS: [usize; 6] = [17, 34, 51, 68, 195, 215];

/// How a session ends over a desk with no accounts, where nothing is closed.
fn serve<H: Abort + AllocGlobal>(
    rt: &H,
    mut input: &[u8],
    writer: &mut Flushed,
) -> Result<Done, SessionFault> {
    let zone = london(rt);
    let mut desk = empty_desk(rt, sample(rt));
    session(&mut input, writer, &zone, &mut desk, &mut NoTill)
}

/// The flush after so many replies fails: that of the next reply, whose bytes are there.
fn expect_flush_fault<H: Abort + AllocGlobal>(rt: &H, replies: u8, bytes: usize) {
    let mut writer = Flushed::new(rt.alloc(), usize::from(replies));
    let wanted = Err(SessionFault::Write {
        answered: u128::from(replies),
    });
    expect_same(rt, serve(rt, LINES.as_bytes(), &mut writer), wanted);
    expect_same(rt, writer.held.len(), bytes);
    assert!(rt; REPLIES.as_bytes().starts_with(&writer.held));
}

#[test]
fn stops_where_a_flush_fails(rt: HostRuntime) {
    for replies in 0..6u8 {
        expect_flush_fault(&rt, replies, ENDS[usize::from(replies)]);
    }
}

/// A session that writes so many bytes in so many replies, the last of which is flushed after them all.
fn expect_flushed<H: Abort + AllocGlobal>(rt: &H, input: &[u8], replies: usize, bytes: usize) {
    let mut writer = Flushed::new(rt.alloc(), usize::MAX);
    assert!(rt; serve(rt, input, &mut writer).is_ok());
    expect_same(
        rt,
        (writer.flushes, writer.flushed, writer.held.len()),
        (replies, bytes, bytes),
    );
}

#[test]
fn flushes_each_reply(rt: HostRuntime) {
    expect_flushed(&rt, LINES.as_bytes(), 6, 215);
    expect_flushed(&rt, b"SHOW 7 19730\n", 1, 17);
    expect_flushed(&rt, b"\n", 1, 14);
    expect_flushed(&rt, b"TAP", 1, 14);
    expect_flushed(&rt, b"QUIT\n", 1, 4);
    expect_flushed(&rt, b"", 0, 0);
}
