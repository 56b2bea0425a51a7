//! The pages on which a clerk corrects an account, whole: what can be corrected, what a correction would change, and what came of it,
//! with markup in each text that is not the page's own.
use crate::given::{MONDAY, expect_same, tap_at};
use pay_day::Moment;
use pay_fix::FixSet;
use pay_fix_page::{Done, Owed, Preview, choices_page, done_page, preview_page, refusal_page};
use pay_money::Pence;
use pay_names::Names;
use pay_rules::{Credit, Fix, Kind, Tap, What};
use pay_taps::TapSet;
use std::process::Abort;

/// A tap of the Tuesday, at noon.
fn on_tuesday<R: Abort>(rt: &R) -> Tap {
    let utc = u64::from(MONDAY + 1) * 86_400 + 43_200;
    Tap {
        stamp: Moment::from_parts(utc, MONDAY + 1, 43_200).expect(rt, "a moment"),
        ..tap_at(rt, 3, 0, 12, Kind::Out)
    }
}

fn taps<R: Abort + AllocGlobal>(rt: &R) -> TapSet {
    let mut taps = TapSet::new(rt.alloc());
    let boarded = tap_at(rt, 1, 33_000, 50, Kind::Bus);
    let _ = taps.add(boarded).expect(rt, "memory");
    let gone_in = tap_at(rt, 2, 25_200, 10, Kind::In);
    let _ = taps.add(gone_in).expect(rt, "memory");
    let _ = taps.add(on_tuesday(rt)).expect(rt, "memory");
    taps
}

/// A correction by the staff 3.
fn fix(seq: u32, what: What) -> Fix {
    Fix {
        account: 7,
        staff: 3,
        seq,
        what,
    }
}

fn fixes<R: Abort + AllocGlobal>(rt: &R) -> FixSet {
    let mut fixes = FixSet::new(rt.alloc());
    let credit = Credit::from_parts(MONDAY + 1, 100).expect(rt, "a credit");
    let _ = fixes.add(fix(4, What::Credit(credit))).expect(rt, "memory");
    let _ = fixes.add(fix(5, What::Drop(9, 9))).expect(rt, "memory");
    fixes
}

#[test]
fn shows_what_can_be_corrected(rt: HostRuntime) {
    let alloc = rt.alloc();
    let mut names = Names::none(alloc);
    names.add(50, "<b>&\"x'").expect(&rt, "memory");
    let (taps, fixes) = (taps(&rt), fixes(&rt));
    let page = choices_page(alloc, &names, &taps, &fixes, 7, MONDAY).expect(&rt, "memory");
    expect_same(&rt, page.as_str(), CHOICES);
}

#[test]
fn shows_that_nothing_can_be_taken_back(rt: HostRuntime) {
    let alloc = rt.alloc();
    let (names, taps, fixes) = (Names::none(alloc), TapSet::new(alloc), FixSet::new(alloc));
    let page = choices_page(alloc, &names, &taps, &fixes, 7, MONDAY).expect(&rt, "memory");
    assert!(rt; page.as_str().contains(NOTHING));
}

#[test]
fn shows_what_would_change(rt: HostRuntime) {
    let preview = Preview {
        account: 7,
        day: MONDAY,
        what: "VOID 1 1",
        staff: 3,
        seq: 6,
        clerk: "O'Neil <x>",
        token: "a\"b",
        before: Owed {
            day: Pence::new(515),
            week: Pence::new(1_040),
        },
        after: Owed {
            day: Pence::new(340),
            week: Pence::new(1_050),
        },
    };
    let page = preview_page(rt.alloc(), &preview).expect(&rt, "memory");
    expect_same(&rt, page.as_str(), PREVIEW);
}

/// A correction with this reply.
fn done(reply: &str) -> Done<'_> {
    Done {
        account: 7,
        day: MONDAY,
        what: "VOID 1 1",
        staff: 3,
        seq: 6,
        reply,
    }
}

#[test]
fn shows_that_it_would_be_refused(rt: HostRuntime) {
    let page = refusal_page(rt.alloc(), &done("NO 15 <i>")).expect(&rt, "memory");
    expect_same(&rt, page.as_str(), REFUSAL);
}

/// The page of a correction with this reply ends so.
fn expect_end<R: Abort + AllocGlobal>(rt: &R, reply: &str, end: &str) {
    let page = done_page(rt.alloc(), &done(reply)).expect(rt, "memory");
    let found = page.as_str().strip_prefix(DONE).expect(rt, "its head");
    expect_same(rt, found, end);
}

#[test]
fn shows_what_came_of_it(rt: HostRuntime) {
    expect_end(&rt, "OK 19730 340 340", KEPT);
    expect_end(&rt, "AGAIN 19730 340 340", AGAIN);
    expect_end(&rt, "NO 22 FixConflict", REFUSED);
    expect_end(&rt, "NO 52 Late", LATE);
    expect_end(&rt, "<i>'OK ", GARBLED);
}

/// The page of the Monday.
const CHOICES: &str = "<!DOCTYPE html>
<html lang=\"en\">
<head>
<meta charset=\"utf-8\">
<meta name=\"viewport\" content=\"width=device-width, initial-scale=1\">
<title>Correct account 7, Monday, day 19730, 2024-01-08</title>
<link rel=\"stylesheet\" href=\"/style.css\">
</head>
<body>
<main>
<h1>Correct account 7, Monday, day 19730, 2024-01-08</h1>
<nav>
<ul>
<li><a href=\"/day?account=7&amp;day=19730\">The day</a></li>
<li><a href=\"/\">Another account or day</a></li>
</ul>
</nav>
<table>
<caption>The taps of the day</caption>
<thead>
<tr><th scope=\"col\">Time</th><th scope=\"col\">Where</th><th scope=\"col\">Kind</th><th scope=\"col\">Reader and number</th><th scope=\"col\">Take out</th></tr>
</thead>
<tbody>
<tr><th scope=\"row\" class=\"time\">09:10:00</th><td>&lt;b&gt;&amp;&quot;x&#39; (50)</td><td>On a bus</td><td>1 1</td><td>
<form action=\"/preview\" method=\"post\">
<input type=\"hidden\" name=\"account\" value=\"7\">
<input type=\"hidden\" name=\"day\" value=\"19730\">
<input type=\"hidden\" name=\"what\" value=\"VOID 1 1\">
<button type=\"submit\">Take it out..</button>
</form>
</td></tr>
<tr><th scope=\"row\" class=\"time\">07:00:00</th><td>10</td><td>In at a station</td><td>1 2</td><td>
<form action=\"/preview\" method=\"post\">
<input type=\"hidden\" name=\"account\" value=\"7\">
<input type=\"hidden\" name=\"day\" value=\"19730\">
<input type=\"hidden\" name=\"what\" value=\"VOID 1 2\">
<button type=\"submit\">Take it out..</button>
</form>
</td></tr>
</tbody>
</table>
<table>
<caption>The corrections of the account, of all days</caption>
<thead>
<tr><th scope=\"col\">Correction</th><th scope=\"col\">About</th><th scope=\"col\">Withdraw</th></tr>
</thead>
<tbody>
<tr><th scope=\"row\">         Credit 3 4 of 1.00: stands
</th><td>day 19731, 2024-01-09</td><td>
<form action=\"/preview\" method=\"post\">
<input type=\"hidden\" name=\"account\" value=\"7\">
<input type=\"hidden\" name=\"day\" value=\"19731\">
<input type=\"hidden\" name=\"what\" value=\"DROP 3 4\">
<button type=\"submit\">Withdraw..</button>
</form>
</td></tr>
<tr><th scope=\"row\">         Drop 3 5 of 9 9: names nothing
</th><td>none</td><td>no</td></tr>
</tbody>
</table>
<h2>Give a credit</h2>
<form action=\"/preview-credit\" method=\"post\">
<input type=\"hidden\" name=\"account\" value=\"7\">
<input type=\"hidden\" name=\"day\" value=\"19730\">
<p><label for=\"pence\">Pence</label>
<input id=\"pence\" name=\"pence\" type=\"number\" min=\"1\" max=\"100000\" required></p>
<p><button type=\"submit\">Preview</button></p>
</form>
<h2>Add a tap that is missing</h2>
<form action=\"/preview-tap\" method=\"post\">
<input type=\"hidden\" name=\"account\" value=\"7\">
<input type=\"hidden\" name=\"day\" value=\"19730\">
<p><label for=\"time\">Time</label>
<input id=\"time\" name=\"time\" type=\"time\" step=\"1\" required></p>
<p><label for=\"place\">Place number</label>
<input id=\"place\" name=\"place\" type=\"number\" min=\"1\" max=\"65535\" required></p>
<p><label for=\"kind\">Kind</label>
<select id=\"kind\" name=\"kind\">
<option value=\"IN\">In at a station</option>
<option value=\"OUT\">Out of a station</option>
<option value=\"BUS\">On a bus</option>
</select></p>
<p><button type=\"submit\">Preview</button></p>
</form>
</main>
</body>
</html>
";

/// What stands there for an account that has accepted nothing.
const NOTHING: &str = "</nav>
<p>The account has no accepted tap of this day.</p>
<p>The account has no accepted correction.</p>
<h2>Give a credit</h2>
";

/// The page of a correction that is not sent yet.
const PREVIEW: &str = "<!DOCTYPE html>
<html lang=\"en\">
<head>
<meta charset=\"utf-8\">
<meta name=\"viewport\" content=\"width=device-width, initial-scale=1\">
<title>What a correction of account 7 would change, day 19730</title>
<link rel=\"stylesheet\" href=\"/style.css\">
</head>
<body>
<main>
<h1>What a correction of account 7 would change, day 19730</h1>
<p>You are O&#39;Neil &lt;x&gt;, staff number 3.</p>
<p>The correction: <code>FIX 3 6 7 VOID 1 1</code></p>
<table>
<caption>Before the correction, and after it</caption>
<thead>
<tr><th scope=\"col\">Of</th><th scope=\"col\">Before</th><th scope=\"col\">After</th><th scope=\"col\">Difference</th></tr>
</thead>
<tbody>
<tr><th scope=\"row\">The price of this day</th><td class=\"amount\">5.15</td><td class=\"amount\">3.40</td><td class=\"amount\">-1.75</td></tr>
<tr><th scope=\"row\">Due of its week through this day</th><td class=\"amount\">10.40</td><td class=\"amount\">10.50</td><td class=\"amount\">+0.10</td></tr>
</tbody>
</table>
<p>A Credit changes no price: it is taken off what is due. What changes on other days is not shown here.</p>
<form action=\"/fix\" method=\"post\">
<input type=\"hidden\" name=\"account\" value=\"7\">
<input type=\"hidden\" name=\"day\" value=\"19730\">
<input type=\"hidden\" name=\"seq\" value=\"6\">
<input type=\"hidden\" name=\"token\" value=\"a&quot;b\">
<input type=\"hidden\" name=\"what\" value=\"VOID 1 1\">
<p><button type=\"submit\">Correct</button></p>
</form>
<p><a href=\"/correct?account=7&amp;day=19730\">Back, and correct nothing</a></p>
</main>
</body>
</html>
";

/// The page of a correction that would be refused.
const REFUSAL: &str = "<!DOCTYPE html>
<html lang=\"en\">
<head>
<meta charset=\"utf-8\">
<meta name=\"viewport\" content=\"width=device-width, initial-scale=1\">
<title>What a correction of account 7 would change, day 19730</title>
<link rel=\"stylesheet\" href=\"/style.css\">
</head>
<body>
<main>
<h1>What a correction of account 7 would change, day 19730</h1>
<p>Not sent: <code>FIX 3 6 7 VOID 1 1</code></p>
<p>It would be refused: <code>NO 15 &lt;i&gt;</code>. There is no such place, or its kind is another: give another place or kind.</p>
<p><a href=\"/correct?account=7&amp;day=19730\">Back, and correct nothing</a></p>
</main>
</body>
</html>
";

/// How each page of a correction that was sent begins.
const DONE: &str = "<!DOCTYPE html>
<html lang=\"en\">
<head>
<meta charset=\"utf-8\">
<meta name=\"viewport\" content=\"width=device-width, initial-scale=1\">
<title>What came of a correction of account 7</title>
<link rel=\"stylesheet\" href=\"/style.css\">
</head>
<body>
<main>
<h1>What came of a correction of account 7</h1>
<p>Sent: <code>FIX 3 6 7 VOID 1 1</code></p>
";

/// How it ends where the correction is kept.
const KEPT: &str = "<p>Reply: <code>OK 19730 340 340</code></p>
<p>The correction is kept.</p>
<p><a href=\"/day?account=7&amp;day=19730\">The day</a></p>
<form action=\"/preview\" method=\"post\">
<input type=\"hidden\" name=\"account\" value=\"7\">
<input type=\"hidden\" name=\"day\" value=\"19730\">
<input type=\"hidden\" name=\"what\" value=\"DROP 3 6\">
<button type=\"submit\">Withdraw it..</button>
</form>
</main>
</body>
</html>
";

/// Where it was kept before.
const AGAIN: &str = "<p>Reply: <code>AGAIN 19730 340 340</code></p>
<p>It was kept before: nothing was done twice.</p>
<p><a href=\"/day?account=7&amp;day=19730\">The day</a></p>
<form action=\"/preview\" method=\"post\">
<input type=\"hidden\" name=\"account\" value=\"7\">
<input type=\"hidden\" name=\"day\" value=\"19730\">
<input type=\"hidden\" name=\"what\" value=\"DROP 3 6\">
<button type=\"submit\">Withdraw it..</button>
</form>
</main>
</body>
</html>
";

/// Where it was refused.
const REFUSED: &str = "<p>Reply: <code>NO 22 FixConflict</code></p>
<p>It was refused, and nothing has changed. Another correction of yours has this number, from the same second: go back and make a new preview.</p>
<p><a href=\"/day?account=7&amp;day=19730\">The day</a></p>
</main>
</body>
</html>
";

/// Where no reply came in time.
const LATE: &str = "<p>Reply: <code>NO 52 Late</code></p>
<p>It may have been kept, or not: look at the day before you correct it again. The service is late: reload this page to send the same form again, which is kept once.</p>
<p><a href=\"/day?account=7&amp;day=19730\">The day</a></p>
</main>
</body>
</html>
";

/// Where the reply is none.
const GARBLED: &str = "<p>Reply: <code>&lt;i&gt;&#39;OK </code></p>
<p>It may have been kept, or not: look at the day before you correct it again.</p>
<p><a href=\"/day?account=7&amp;day=19730\">The day</a></p>
</main>
</body>
</html>
";
