//! What a clerk is shown before a correction is sent, and after it.
ghost use Rattle.std.specs.Prelude.{◌≡◌, IfOk};
ghost use Rattle.std.specs.String.{string_bytes};
ghost use Rattle.pay_page_job.specs.Corrected.{IsDoneBy, IsDoneWith, IsPreviewPage, IsRefusalOf, IsRefusalPage, IsShownPage, what_words};
ghost use Rattle.pay_web.specs.Words.{IsAsked};

use crate::followed::Followed;
use crate::what::{line_of, what_words};
use pay_fix_page::{Done, Owed, Preview, done_page, preview_page, refusal_page};
use pay_jobs::Fault;
use pay_web::{Asked, Viewer};
use pay_wire::{Refusal, SpelledFix};
use std::alloc::{AllocError, Global};

/// The page of what a correction would change, or of its refusal.
pub(crate) fn preview_in(
    followed: &Followed,
    fares: &str,
    zone: &str,
    asked: Asked,
    fix: &SpelledFix,
    viewer: &Viewer<'_>,
) -> Result<String, Fault>
    requires { IsAsked asked }
    ensures { IfOk result (λ text. IsPreviewPage fares.now zone.now (asked, fix.now) viewer.now (string_bytes text)) }
{
    let line = line_of(followed.alloc(), fix)?;
    match followed.owed(fares, zone, asked) {
        Ok(before) => match followed.owed_with(fares, zone, asked, line.as_slice()) {
            Ok(after) => shown_by(followed.alloc(), asked, fix, viewer, (before, after)),
            Err(fault) => refused_or(followed.alloc(), asked, fix, fault),
        },
        Err(fault) => Err(fault),
    }
}

/// The page of a refusal, or another fault.
fn refused_or(alloc: Global, asked: Asked, fix: &SpelledFix, fault: Fault) -> Result<String, Fault>
    ensures { IfOk result (λ text. IsRefusalOf (asked, fix.now) fault (string_bytes text)) }
{
    match fault {
        Fault::JournalLineOf { why, .. } => refused_by(alloc, asked, fix, why),
        other => Err(other),
    }
}

/// The page of what a correction would change, from what is owed before it to what is owed after it.
fn shown_by(
    alloc: Global,
    asked: Asked,
    fix: &SpelledFix,
    viewer: &Viewer<'_>,
    owed: (Owed, Owed),
) -> Result<String, Fault>
    ensures { IfOk result (λ text. IsShownPage (asked, fix.now) viewer.now owed (string_bytes text)) }
{
    let what = what_words(alloc, &fix.what)?;
    let preview = Preview {
        account: asked.account,
        day: asked.day,
        what: what.as_str(),
        staff: u32::from(fix.staff),
        seq: fix.seq,
        clerk: viewer.name,
        token: viewer.token,
        before: owed.0,
        after: owed.1,
    };
    let page = preview_page(alloc, &preview)?;
    Ok(page)
}

/// The page of a refusal.
fn refused_by(alloc: Global, asked: Asked, fix: &SpelledFix, why: Refusal) -> Result<String, Fault>
    ensures { IfOk result (λ text. IsRefusalPage (asked, fix.now) why (string_bytes text)) }
{
    let what = what_words(alloc, &fix.what)?;
    let (number, name) = (why.number(), why.name());
    let mut reply = String::new(alloc);
    write!(reply, "NO {number} {name}")?;
    let page = refusal_page(alloc, &done_of(asked, fix, what.as_str(), reply.as_str()))?;
    Ok(page)
}

/// A correction, with what it does, and the reply to it.
fn done_of<'a>(asked: Asked, fix: &SpelledFix, what: &'a str, reply: &'a str) -> Done<'a>
    ensures { what.now ≡ what_words fix.now.what → IsDoneBy asked fix.now reply.now result }
{
    Done {
        account: asked.account,
        day: asked.day,
        what,
        staff: u32::from(fix.staff),
        seq: fix.seq,
        reply,
    }
}

/// The page of what came of a correction.
pub(crate) fn done_by(
    alloc: Global,
    asked: Asked,
    fix: &SpelledFix,
    reply: &str,
) -> Result<String, AllocError>
    ensures { IfOk result (λ text. IsDoneWith (asked, fix.now) reply.now (string_bytes text)) }
{
    let what = what_words(alloc, &fix.what)?;
    done_page(alloc, &done_of(asked, fix, what.as_str(), reply))
}
