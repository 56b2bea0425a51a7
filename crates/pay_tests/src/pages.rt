//! The pages of customer service, whole: each kind of journey, a name with markup in it, and a correction.
use crate::given::{MONDAY, expect_same, sample, tap_at};
use pay_day::Moment;
use pay_fix::FixSet;
use pay_names::Names;
use pay_page::{Posted, PostedWeek, day_page, form_page, week_page};
use pay_rules::{Credit, Fix, Kind, Tap, What};
use pay_taps::TapSet;
use std::alloc::AllocError;
use std::process::Abort;

/// The instant, place and kind of a tap of the Monday, by its second.
const TAPS: [(u32, u16, Kind); 11] = [
    (24_200, 50, Kind::Bus),
    (25_200, 50, Kind::Bus),
    (28_800, 10, Kind::In),
    (30_000, 12, Kind::Out),
    (32_400, 14, Kind::In),
    (33_600, 12, Kind::Out),
    (34_200, 10, Kind::In),
    (34_800, 11, Kind::Out),
    (43_200, 10, Kind::In),
    (43_260, 10, Kind::Out),
    (64_800, 14, Kind::In),
];

/// A boarding at 04:20 of the night, by when the Tuesday has not begun.
fn at_night<R: Abort>(rt: &R) -> Tap {
    let utc = u64::from(MONDAY + 1) * 86_400 + 15_600;
    Tap {
        stamp: Moment::from_parts(utc, MONDAY, 15_600).expect(rt, "a moment"),
        ..tap_at(rt, 100, 0, 50, Kind::Bus)
    }
}

fn taps<R: Abort + AllocGlobal>(rt: &R) -> TapSet {
    let mut taps = TapSet::new(rt.alloc());
    for place in 0..TAPS.len() {
        let (second, station, kind) = TAPS[place];
        let tap = tap_at(rt, place as u32, second, station, kind);
        let _ = taps.add(tap).expect(rt, "memory");
    }
    let _ = taps.add(at_night(rt)).expect(rt, "memory");
    taps
}

fn credit<R: Abort>(rt: &R) -> Fix {
    Fix {
        account: 7,
        staff: 3,
        seq: 1,
        what: What::Credit(Credit::from_parts(MONDAY, 100).expect(rt, "a credit")),
    }
}

/// So this page came.
fn expect_page<R: Abort>(rt: &R, page: Result<String, AllocError>, wanted: &'static str) {
    let page = page.expect(rt, "memory");
    expect_same(rt, page.as_str(), wanted);
}

/// What was posted, beside journals without a line.
fn posted_week<'a>(posted: &'a Posted, operators: &'a Names) -> PostedWeek<'a> {
    PostedWeek {
        posted,
        operators,
        version: 0,
    }
}

#[test]
fn shows_a_day_and_its_week(rt: HostRuntime) {
    let alloc = rt.alloc();
    let editions = sample(&rt);
    let mut names = Names::none(alloc);
    names.add(10, "Abbey").expect(&rt, "memory");
    names.add(50, "<b>&\"x'").expect(&rt, "memory");
    let taps = taps(&rt);
    let mut fixes = FixSet::new(alloc);
    let _ = fixes.add(credit(&rt)).expect(&rt, "memory");
    let day = day_page(alloc, true, &names, &editions, &taps, &fixes, 7, MONDAY);
    expect_page(&rt, day, DAY);
    let unknown = Posted::Unknown;
    let week = week_page(
        alloc,
        false,
        &posted_week(&unknown, &names),
        &editions,
        &taps,
        &fixes,
        7,
        MONDAY + 1,
    );
    expect_page(&rt, week, WEEK);
    expect_page(&rt, form_page(alloc, false), FORM);
    expect_page(&rt, form_page(alloc, true), CORRECTING_FORM);
}

/// The page of the Monday.
const DAY: &str = "<!DOCTYPE html>
<html lang=\"en\">
<head>
<meta charset=\"utf-8\">
<meta name=\"viewport\" content=\"width=device-width, initial-scale=1\">
<title>Account 7, Monday, day 19730, 2024-01-08</title>
<link rel=\"stylesheet\" href=\"/style.css\">
</head>
<body>
<main>
<h1>Account 7, Monday, day 19730, 2024-01-08</h1>
<nav>
<ul>
<li><a href=\"/\">Another account or day</a></li>
<li><a href=\"/week?account=7&amp;day=19730\">The week through this day</a></li>
<li><a href=\"/day?account=7&amp;day=19729\">The day before</a></li>
<li><a href=\"/day?account=7&amp;day=19731\">The day after</a></li>
<li><a href=\"/correct?account=7&amp;day=19730\">Correct this day</a></li>
</ul>
</nav>
<svg viewBox=\"0 0 1040 150\" role=\"img\" aria-labelledby=\"picture-title picture-desc\">
<title id=\"picture-title\">Account 7, Monday, day 19730, 2024-01-08</title>
<desc id=\"picture-desc\">The day from 04:30 to 04:30. Squares are boardings, and bars are legs by rail, which a line joins to a journey. Diamonds are taps that stand alone. What costs nothing is hollow. The numbers are those of the table.</desc>
<text x=\"10\" y=\"56\">Bus</text>
<text x=\"10\" y=\"106\">Rail</text>
<line class=\"hour\" x1=\"80\" y1=\"10\" x2=\"80\" y2=\"120\"/>
<text class=\"hour\" x=\"80\" y=\"138\">5:00</text>
<line class=\"hour\" x1=\"120\" y1=\"10\" x2=\"120\" y2=\"120\"/>
<text class=\"hour\" x=\"120\" y=\"138\">6:00</text>
<line class=\"hour\" x1=\"160\" y1=\"10\" x2=\"160\" y2=\"120\"/>
<text class=\"hour\" x=\"160\" y=\"138\">7:00</text>
<line class=\"hour\" x1=\"200\" y1=\"10\" x2=\"200\" y2=\"120\"/>
<text class=\"hour\" x=\"200\" y=\"138\">8:00</text>
<line class=\"hour\" x1=\"240\" y1=\"10\" x2=\"240\" y2=\"120\"/>
<text class=\"hour\" x=\"240\" y=\"138\">9:00</text>
<line class=\"hour\" x1=\"280\" y1=\"10\" x2=\"280\" y2=\"120\"/>
<text class=\"hour\" x=\"280\" y=\"138\">10:00</text>
<line class=\"hour\" x1=\"320\" y1=\"10\" x2=\"320\" y2=\"120\"/>
<text class=\"hour\" x=\"320\" y=\"138\">11:00</text>
<line class=\"hour\" x1=\"360\" y1=\"10\" x2=\"360\" y2=\"120\"/>
<text class=\"hour\" x=\"360\" y=\"138\">12:00</text>
<line class=\"hour\" x1=\"400\" y1=\"10\" x2=\"400\" y2=\"120\"/>
<text class=\"hour\" x=\"400\" y=\"138\">13:00</text>
<line class=\"hour\" x1=\"440\" y1=\"10\" x2=\"440\" y2=\"120\"/>
<text class=\"hour\" x=\"440\" y=\"138\">14:00</text>
<line class=\"hour\" x1=\"480\" y1=\"10\" x2=\"480\" y2=\"120\"/>
<text class=\"hour\" x=\"480\" y=\"138\">15:00</text>
<line class=\"hour\" x1=\"520\" y1=\"10\" x2=\"520\" y2=\"120\"/>
<text class=\"hour\" x=\"520\" y=\"138\">16:00</text>
<line class=\"hour\" x1=\"560\" y1=\"10\" x2=\"560\" y2=\"120\"/>
<text class=\"hour\" x=\"560\" y=\"138\">17:00</text>
<line class=\"hour\" x1=\"600\" y1=\"10\" x2=\"600\" y2=\"120\"/>
<text class=\"hour\" x=\"600\" y=\"138\">18:00</text>
<line class=\"hour\" x1=\"640\" y1=\"10\" x2=\"640\" y2=\"120\"/>
<text class=\"hour\" x=\"640\" y=\"138\">19:00</text>
<line class=\"hour\" x1=\"680\" y1=\"10\" x2=\"680\" y2=\"120\"/>
<text class=\"hour\" x=\"680\" y=\"138\">20:00</text>
<line class=\"hour\" x1=\"720\" y1=\"10\" x2=\"720\" y2=\"120\"/>
<text class=\"hour\" x=\"720\" y=\"138\">21:00</text>
<line class=\"hour\" x1=\"760\" y1=\"10\" x2=\"760\" y2=\"120\"/>
<text class=\"hour\" x=\"760\" y=\"138\">22:00</text>
<line class=\"hour\" x1=\"800\" y1=\"10\" x2=\"800\" y2=\"120\"/>
<text class=\"hour\" x=\"800\" y=\"138\">23:00</text>
<line class=\"hour\" x1=\"840\" y1=\"10\" x2=\"840\" y2=\"120\"/>
<text class=\"hour\" x=\"840\" y=\"138\">0:00</text>
<line class=\"hour\" x1=\"880\" y1=\"10\" x2=\"880\" y2=\"120\"/>
<text class=\"hour\" x=\"880\" y=\"138\">1:00</text>
<line class=\"hour\" x1=\"920\" y1=\"10\" x2=\"920\" y2=\"120\"/>
<text class=\"hour\" x=\"920\" y=\"138\">2:00</text>
<line class=\"hour\" x1=\"960\" y1=\"10\" x2=\"960\" y2=\"120\"/>
<text class=\"hour\" x=\"960\" y=\"138\">3:00</text>
<line class=\"hour\" x1=\"1000\" y1=\"10\" x2=\"1000\" y2=\"120\"/>
<text class=\"hour\" x=\"1000\" y=\"138\">4:00</text>
<rect class=\"paid\" x=\"148\" y=\"44\" width=\"8\" height=\"16\"/>
<text x=\"148\" y=\"36\">1</text>
<rect class=\"free\" x=\"160\" y=\"44\" width=\"8\" height=\"16\"/>
<text x=\"160\" y=\"24\">2</text>
<line class=\"join\" x1=\"200\" y1=\"102\" x2=\"213\" y2=\"102\"/>
<rect class=\"paid\" x=\"200\" y=\"96\" width=\"13\" height=\"12\"/>
<text x=\"200\" y=\"88\">3</text>
<line class=\"join\" x1=\"240\" y1=\"102\" x2=\"266\" y2=\"102\"/>
<rect class=\"paid\" x=\"240\" y=\"96\" width=\"13\" height=\"12\"/>
<rect class=\"paid\" x=\"260\" y=\"96\" width=\"6\" height=\"12\"/>
<text x=\"240\" y=\"76\">4</text>
<rect class=\"free\" x=\"360\" y=\"96\" width=\"6\" height=\"12\"/>
<text x=\"360\" y=\"88\">5</text>
<path class=\"lone\" d=\"M600 94l8 8-8 8-8-8z\"/>
<text x=\"600\" y=\"76\">6</text>
<rect class=\"paid\" x=\"1013\" y=\"44\" width=\"8\" height=\"16\"/>
<text x=\"1013\" y=\"36\">7</text>
</svg>
<table>
<caption>The journeys of the day, and why each costs what it costs</caption>
<thead>
<tr><th scope=\"col\">No.</th><th scope=\"col\">Amount</th><th scope=\"col\">Time</th><th scope=\"col\">What</th></tr>
</thead>
<tbody>
<tr id=\"journey-1\"><th scope=\"row\">1</th><td class=\"amount\">1.75</td><td>06:43:20</td><td>bus &lt;b&gt;&amp;&quot;x&#39; (50), paid: the first boarding</td></tr>
<tr id=\"journey-2\"><th scope=\"row\">2</th><td class=\"amount\">0.00</td><td>07:00:00</td><td>bus &lt;b&gt;&amp;&quot;x&#39; (50), free: within 3600 s of the boarding at 06:43:20</td></tr>
<tr id=\"journey-3\"><th scope=\"row\">3</th><td class=\"amount\">3.40</td><td>08:00:00</td><td>rail Abbey (10) to 12, zones 1 to 2, peak (morning)</td></tr>
<tr id=\"journey-4\"><th scope=\"row\">4</th><td class=\"amount\">3.70</td><td>09:00:00</td><td>rail 14 to 11 by 2 legs, zones 1 to 3, peak (morning)</td></tr>
<tr id=\"journey-5\"><th scope=\"row\">5</th><td class=\"amount\">0.00</td><td>12:00:00</td><td>rail in and out at Abbey (10), free: out after 60 s</td></tr>
<tr id=\"journey-6\"><th scope=\"row\">6</th><td class=\"amount\">8.60</td><td>18:00:00</td><td>rail in at 14, maximum fare: no tap out comes next</td></tr>
<tr id=\"journey-7\"><th scope=\"row\">7</th><td class=\"amount\">1.75</td><td>04:20:00</td><td>bus &lt;b&gt;&amp;&quot;x&#39; (50), paid: more than 3600 s after the boarding at 06:43:20</td></tr>
</tbody>
</table>
<table>
<caption>The price of the day</caption>
<thead>
<tr><th scope=\"col\">What</th><th scope=\"col\">Amount</th></tr>
</thead>
<tbody>
<tr><th scope=\"row\">All but maximum fares, without a cap</th><td class=\"amount\">10.60</td></tr>
<tr><th scope=\"row\">By the cap of zones 1 to 3, in place of 10.60</th><td class=\"amount\">10.50</td></tr>
<tr><th scope=\"row\">Outside of it</th><td class=\"amount\">0.00</td></tr>
<tr><th scope=\"row\">Maximum fares</th><td class=\"amount\">8.60</td></tr>
<tr><th scope=\"row\">The day</th><td class=\"amount\">19.10</td></tr>
</tbody>
</table>
<h2>Corrections</h2>
<ul>
<li>         Credit 3 1 of 1.00: stands
</li>
</ul>
</main>
</body>
</html>
";

/// The page of its week through the Tuesday.
const WEEK: &str = "<!DOCTYPE html>
<html lang=\"en\">
<head>
<meta charset=\"utf-8\">
<meta name=\"viewport\" content=\"width=device-width, initial-scale=1\">
<title>Account 7, week from day 19730, 2024-01-08, through day 19731, 2024-01-09</title>
<link rel=\"stylesheet\" href=\"/style.css\">
</head>
<body>
<main>
<h1>Account 7, week from day 19730, 2024-01-08, through day 19731, 2024-01-09</h1>
<nav>
<ul>
<li><a href=\"/\">Another account or day</a></li>
<li><a href=\"/week?account=7&amp;day=19729\">The week before</a></li>
<li><a href=\"/week?account=7&amp;day=19743\">The week after</a></li>
</ul>
</nav>
<table>
<caption>The days, each with its daily cap and without its maximum fares</caption>
<thead>
<tr><th scope=\"col\">What</th><th scope=\"col\">Amount</th></tr>
</thead>
<tbody>
<tr><th scope=\"row\"><a href=\"/day?account=7&amp;day=19730\">Monday, day 19730, 2024-01-08</a></th><td class=\"amount\">10.50</td></tr>
<tr><th scope=\"row\"><a href=\"/day?account=7&amp;day=19731\">Tuesday, day 19731, 2024-01-09</a></th><td class=\"amount\">0.00</td></tr>
</tbody>
</table>
<table>
<caption>The price of the week through this day</caption>
<thead>
<tr><th scope=\"col\">What</th><th scope=\"col\">Amount</th></tr>
</thead>
<tbody>
<tr><th scope=\"row\">These days, without a week cap</th><td class=\"amount\">10.50</td></tr>
<tr><th scope=\"row\">Maximum fares of these days</th><td class=\"amount\">8.60</td></tr>
<tr><th scope=\"row\">The week</th><td class=\"amount\">19.10</td></tr>
<tr><th scope=\"row\">Credit 3 1 of day 19730</th><td class=\"amount\">1.00</td></tr>
<tr><th scope=\"row\">Credits, taken off</th><td class=\"amount\">1.00</td></tr>
<tr><th scope=\"row\">Due</th><td class=\"amount\">18.10</td></tr>
</tbody>
</table>
<h2>Posted</h2>
<p>What was posted is not known now.</p>
</main>
</body>
</html>
";

/// The page that begins.
const FORM: &str = "<!DOCTYPE html>
<html lang=\"en\">
<head>
<meta charset=\"utf-8\">
<meta name=\"viewport\" content=\"width=device-width, initial-scale=1\">
<title>Why an account was charged</title>
<link rel=\"stylesheet\" href=\"/style.css\">
</head>
<body>
<main>
<h1>Why an account was charged</h1>
<form action=\"/week\" method=\"get\">
<p><label for=\"account\">Account</label>
<input id=\"account\" name=\"account\" type=\"number\" min=\"1\" max=\"4294967295\" required></p>
<p><label for=\"day\">Day</label>
<input id=\"day\" name=\"day\" type=\"date\" min=\"1970-01-05\" max=\"2106-11-24\" required></p>
<p><button type=\"submit\">Show its week through this day</button></p>
</form>
</main>
</body>
</html>
";

/// The same where corrections may be asked for.
const CORRECTING_FORM: &str = "<!DOCTYPE html>
<html lang=\"en\">
<head>
<meta charset=\"utf-8\">
<meta name=\"viewport\" content=\"width=device-width, initial-scale=1\">
<title>Why an account was charged</title>
<link rel=\"stylesheet\" href=\"/style.css\">
</head>
<body>
<main>
<h1>Why an account was charged</h1>
<form action=\"/week\" method=\"get\">
<p><label for=\"account\">Account</label>
<input id=\"account\" name=\"account\" type=\"number\" min=\"1\" max=\"4294967295\" required></p>
<p><label for=\"day\">Day</label>
<input id=\"day\" name=\"day\" type=\"date\" min=\"1970-01-05\" max=\"2106-11-24\" required></p>
<p><button type=\"submit\">Show its week through this day</button>
<button type=\"submit\" formaction=\"/correct\">Correct this day</button></p>
</form>
</main>
</body>
</html>
";
